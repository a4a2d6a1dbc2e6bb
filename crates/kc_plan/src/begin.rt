// The parts of an audit, looked up in a kernel's types and symbols.
ghost use Rattle.std.specs.Prelude.{◌≡◌, ◌≤◌, [], length, Some, unwrap_or, option_map, IfOk, IfSome};
ghost use Rattle.std.specs.Option.{option_copied};
ghost use Rattle.kc_layout.specs.Ends.{located};
ghost use Rattle.kc_layout.specs.Views.{byte_view, bits_view};
ghost use Rattle.kc_expr.specs.declared.keys.fault.PlanKey.TheVariants as key;
ghost use Rattle.kc_plan.specs.Answers.{Gives};
ghost use Rattle.kc_plan.specs.Plans.{struct_at, type_named, addressed, root_at, from_at, root_for, is_headless, begun, element_at, link_for, key_for, first_byte};
ghost use Rattle.kc_kinds.specs.Rows.{IsRow};
ghost use Rattle.kc_plan.specs.Inside.{StartsInside};
ghost use Rattle.kc_plan.specs.Planned.{start_seen};
ghost use Rattle.kc_plan.specs.Values.{at};
ghost use Rattle.kc_kinds.specs.Kernels.{kernel};
ghost use Rattle.kc_plan.specs.Views.{start_text};
ghost use Rattle.kc_syms.specs.Addresses.{common_of};
ghost use Rattle.kc_syms.specs.Symbols.{symbol};

use crate::item::StartWords;
use crate::planned::Start;
use crate::value::stop;
use kc_btf::Btf;
use kc_expr::{PRule, PlanKey, PlanStop};
use kc_kinds::{Known, Row, is_struct};
use kc_layout::{Hops, Located, locate, resolve};
use kc_syms::Symbols;
use kc_word::Bits;

// Where a path from a type leads, where that is this struct; else this stop.
fn struct_at(
    btf: &Btf,
    wanted: Option<u32>,
    id: u32,
    path: &str,
    audit: u32,
    key: PlanKey,
) -> Result<Located, PlanStop>
    requires { id ≤ length btf.now.records }
    ensures exact { Gives byte_view result (at (Some audit) key (struct_at btf.now wanted (located btf.now id path.now))) }
    ensures there { IfOk result (λ place. place.ty ≤ length btf.now.records) }
{
    let Ok(place) = locate(btf, id, path.as_bytes()) else {
        return Err(stop(PRule::P10, Some(audit), key));
    };
    if is_struct(btf, place.ty, wanted) {
        Ok(place)
    } else {
        Err(stop(PRule::P10, Some(audit), key))
    }
}

// The type with a name.
fn type_named(known: &Known<'_>, name: &str, audit: u32, key: PlanKey) -> Result<u32, PlanStop>
    ensures exact { Gives (λ ty. ty) result (at (Some audit) key (type_named known.now.btf.now name.now)) }
    ensures there { IfOk result (λ ty. ty ≤ length known.now.btf.now.records) }
{
    match known.names.find(known.btf, name.as_bytes()) {
        Some(ty) => Ok(ty),
        None => Err(stop(PRule::P10, Some(audit), key)),
    }
}

// The address of a symbol.
fn address_of(symbols: &Symbols<'_>, kaslr: u64, name: &str, audit: u32) -> Result<u64, PlanStop>
    ensures { Gives (λ address. address) result (at (Some audit) key.Root (addressed (common_of kaslr (symbol symbols.now name.now)))) }
{
    match symbols.address(name.as_bytes(), kaslr) {
        Ok(address) => Ok(address),
        Err(_) => Err(stop(PRule::P9, Some(audit), PlanKey::Root)),
    }
}

// The first byte of a type.
fn first_byte(ty: u32) -> Located
    ensures exact { byte_view result ≡ first_byte ty }
    ensures same { result.ty ≡ ty }
{
    Located {
        hops: Hops {
            count: 0,
            a: 0,
            b: 0,
            c: 0,
            d: 0,
        },
        byte: 0,
        ty,
    }
}

// Where a root audit begins, whose symbol is at an address.
fn root_at(
    known: &Known<'_>,
    needs: &Row,
    audit: u32,
    address: u64,
    start: StartWords<'_>,
) -> Result<Start, PlanStop>
    requires { IsRow (length known.now.btf.now.records) needs.now }
    ensures exact { Gives start_seen result (root_at known.now.btf.now needs.now audit address (option_copied start.entry.root_type) (unwrap_or (option_copied start.entry.root_path) [])) }
    ensures there { IfOk result (StartsInside (length known.now.btf.now.records)) }
{
    let Some(name) = start.root_type else {
        let ty = needs.head.unwrap_or(0);
        return Ok(Start::Root {
            symbol: address,
            ty,
            to: first_byte(ty),
        });
    };
    let ty = type_named(known, name, audit, PlanKey::RootType)?;
    let path = start.root_path.unwrap_or("");
    let to = struct_at(known.btf, needs.head, ty, path, audit, PlanKey::RootPath)?;
    Ok(Start::Root {
        symbol: address,
        ty,
        to,
    })
}

// Where a path leads from the element of the audit above.
fn from_at(
    btf: &Btf,
    needs: &Row,
    audit: u32,
    above: Option<u32>,
    path: &str,
) -> Result<Located, PlanStop>
    requires { IfSome above (λ id. id ≤ length btf.now.records) }
    ensures exact { Gives byte_view result (at (Some audit) key.From (from_at btf.now needs.now above path.now)) }
    ensures there { IfOk result (λ place. place.ty ≤ length btf.now.records) }
{
    match above {
        Some(element) => struct_at(btf, needs.head, element, path, audit, PlanKey::From),
        None => Err(stop(PRule::P10, Some(audit), PlanKey::From)),
    }
}

// Whether a root audit, whose symbol is the head itself, is of a kind that asks for the head's struct at once, and lacks it.
pub(crate) fn is_headless(needs: &Row, start: StartWords<'_>) -> bool
    ensures { result ≡ is_headless needs.now (start_text start.entry) }
{
    !needs.named && start.root.is_some() && start.root_type.is_none()
}

// The address of the symbol of a root audit.
pub(crate) fn root_of(
    known: &Known<'_>,
    audit: u32,
    name: Option<&str>,
) -> Result<Option<u64>, PlanStop>
    ensures { Gives (λ root. root) result (root_for (kernel known.now) audit (option_copied name.entry)) }
{
    match name {
        Some(name) => {
            let address = address_of(known.symbols, known.kaslr, name, audit)?;
            Ok(Some(address))
        }
        None => Ok(None),
    }
}

// Where an audit begins, where its symbol has this address and the element of the audit above has this type.
pub(crate) fn begun(
    known: &Known<'_>,
    needs: &Row,
    audit: u32,
    above: Option<u32>,
    root: Option<u64>,
    start: StartWords<'_>,
) -> Result<Start, PlanStop>
    requires row { IsRow (length known.now.btf.now.records) needs.now }
    requires above { IfSome above (λ id. id ≤ length known.now.btf.now.records) }
    ensures exact { Gives start_seen result (begun known.now.btf.now needs.now audit above (start_text start.entry) root) }
    ensures there { IfOk result (StartsInside (length known.now.btf.now.records)) }
{
    let Some(address) = root else {
        let path = start.from.unwrap_or("");
        let to = from_at(known.btf, needs, audit, above, path)?;
        return Ok(Start::From {
            to,
            optional: start.optional,
        });
    };
    root_at(known, needs, audit, address, start)
}

// The type of the elements.
pub(crate) fn element_at(
    known: &Known<'_>,
    needs: &Row,
    audit: u32,
    name: Option<&str>,
) -> Result<Option<u32>, PlanStop>
    requires { IsRow (length known.now.btf.now.records) needs.now }
    ensures exact { Gives (λ ty. ty) result (at (Some audit) key.Element (element_at known.now.btf.now needs.now.element (option_copied name.entry))) }
    ensures there { IfOk result (λ ty. IfSome ty (λ id. id ≤ length known.now.btf.now.records)) }
{
    match name {
        Some(name) => {
            let ty = type_named(known, name, audit, PlanKey::Element)?;
            Ok(Some(ty))
        }
        None => Ok(needs.element),
    }
}

// The byte of the node in an element.
pub(crate) fn link_at(
    btf: &Btf,
    needs: &Row,
    audit: u32,
    element: Option<u32>,
    path: Option<&str>,
) -> Result<u64, PlanStop>
    requires { IfSome element (λ id. id ≤ length btf.now.records) }
    ensures { Gives (λ byte. byte) result (link_for btf.now needs.now audit element (option_copied path.entry)) }
{
    let Some(path) = path else {
        return Ok(0);
    };
    let Some(element) = element else {
        return Err(stop(PRule::P10, Some(audit), PlanKey::Link));
    };
    let place = struct_at(btf, needs.node, element, path, audit, PlanKey::Link)?;
    if place.hops.count == 0 {
        Ok(place.byte)
    } else {
        Err(stop(PRule::P10, Some(audit), PlanKey::Link))
    }
}

// The bits of the key in an element.
pub(crate) fn key_at(
    btf: &Btf,
    audit: u32,
    element: Option<u32>,
    path: Option<&str>,
) -> Result<Option<Bits>, PlanStop>
    requires { IfSome element (λ id. id ≤ length btf.now.records) }
    ensures { Gives (option_map bits_view) result (key_for btf.now audit element (option_copied path.entry)) }
{
    let Some(path) = path else {
        return Ok(None);
    };
    let Some(element) = element else {
        return Err(stop(PRule::P10, Some(audit), PlanKey::Key));
    };
    let Ok(number) = resolve(btf, element, path.as_bytes()) else {
        return Err(stop(PRule::P10, Some(audit), PlanKey::Key));
    };
    if number.hops.count == 0 {
        Ok(Some(number.bits))
    } else {
        Err(stop(PRule::P10, Some(audit), PlanKey::Key))
    }
}
