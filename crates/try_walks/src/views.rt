// Views. A case gives what is asked: a number, an address, a path's end, a part, or an element.
ghost use Rattle.std.specs.Prelude.{◌≡◌, ◌≤◌, ◌∷◌, [], drop, All};

use crate::numbers::missing_text;
use crate::walk::Walks;
use anyhow::{Context, Result, bail, ensure};
use kc_btf::Btf;
use kc_cases::{Case, CaseFile};
use kc_fixture::Types;
use kc_found::ListSpace;
use kc_layout::{Field, Hops, Located};
use kc_view::{Led, View};
use kc_word::{Bits, Steps};
use std::alloc::Global;
use std::sync::ledger::Ledger;

/// Views of types at addresses.
pub struct Views;

impl Walks for Views {
    fn answer<L: Ledger>(
        &self,
        alloc: Global,
        case: &Case<'_>,
        steps: &mut Steps<L>,
    ) -> Result<String> {
        let Case { file, given } = case;
        let mut types = Types::new(alloc)?;
        types.add(file.section("types")?)?;
        let btf = Btf::read(alloc, types.file(alloc)?)?;
        let mut space = file.memory(alloc, "", file.section("words")?)?;
        let words: Vec<&str> = given.split(' ').collect(alloc)?;
        match words.as_slice() {
            ["part", at, offsets, byte] => {
                let view = View::new(&btf, 0, file.number(at)?);
                let hops = hops(alloc, file, offsets)?;
                part(alloc, &view, hops, file.number(byte)?)
            }
            ["element", ty, at, index] => {
                let ty = ty.parse::<u32>()?;
                element(alloc, &btf, ty, file.number(at)?, file.number(index)?)
            }
            read => in_memory(alloc, file, &btf, &mut space, read, steps),
        }
    }
}

// What is read of memory: a number, the address behind pointers, or where a path leads.
fn in_memory<L: Ledger>(
    alloc: Global,
    file: &CaseFile,
    btf: &Btf,
    space: &mut ListSpace,
    words: &[&str],
    steps: &mut Steps<L>,
) -> Result<String> {
    match words {
        ["number", at, offsets, bit] => {
            let view = View::new(btf, 0, file.number(at)?);
            let hops = hops(alloc, file, offsets)?;
            number(alloc, &view, space, hops, file.number(bit)?, steps)
        }
        ["address", at, offsets] => {
            let view = View::new(btf, 0, file.number(at)?);
            let hops = hops(alloc, file, offsets)?;
            address(alloc, &view, space, hops, steps)
        }
        ["path", at, offsets, byte] => {
            let view = View::new(btf, 0, file.number(at)?);
            let hops = hops(alloc, file, offsets)?;
            path(alloc, &view, space, hops, file.number(byte)?, steps)
        }
        _ => bail!("an unknown question"),
    }
}

// Pointers at these offsets, of which there are at most four.
fn hops(alloc: Global, file: &CaseFile, text: &str) -> Result<Hops> {
    let mut offsets = Vec::new(alloc);
    if text != "-" {
        for word in text.split(',') {
            offsets.push(file.number(word)?)?;
        }
    }
    match offsets.as_slice() {
        [] => Ok(make_hops(0, 0, 0, 0, 0)),
        [a] => Ok(make_hops(1, *a, 0, 0, 0)),
        [a, b] => Ok(make_hops(2, *a, *b, 0, 0)),
        [a, b, c] => Ok(make_hops(3, *a, *b, *c, 0)),
        [a, b, c, d] => Ok(make_hops(4, *a, *b, *c, *d)),
        _ => bail!("too many pointers"),
    }
}

// So many pointers.
fn make_hops(count: u8, a: u64, b: u64, c: u64, d: u64) -> Hops
    requires few { count ≤ 4 }
    requires beyond { All (λ offset. offset ≡ 0) (drop count (a ∷ b ∷ c ∷ d ∷ [])) }
{
    Hops { count, a, b, c, d }
}

// A number of 64 bits, and the address of its first word.
fn number<L: Ledger>(
    alloc: Global,
    view: &View<'_>,
    space: &mut ListSpace,
    hops: Hops,
    bit: u64,
    steps: &mut Steps<L>,
) -> Result<String> {
    let field = Field {
        hops,
        bits: Bits {
            bit: bit % (1 << 36),
            width: 64,
            signed: false,
        },
        ty: 1,
    };
    match view.read(space, &field, steps) {
        Ok(scalar) => {
            let first = scalar.first.va.context("no address")?;
            Ok(format!(in alloc; "{:x} at {first:x}", scalar.value.unsigned_abs())?)
        }
        Err(stop) => Ok(missing_text(alloc, stop)?),
    }
}

// The address behind pointers.
fn address<L: Ledger>(
    alloc: Global,
    view: &View<'_>,
    space: &mut ListSpace,
    hops: Hops,
    steps: &mut Steps<L>,
) -> Result<String> {
    match view.behind(space, &hops, steps) {
        Ok(address) => Ok(format!(in alloc; "{address:x}")?),
        Err(stop) => Ok(missing_text(alloc, stop)?),
    }
}

// Where a path leads: a type and its address, or a null pointer's address and its word's.
fn path<L: Ledger>(
    alloc: Global,
    view: &View<'_>,
    space: &mut ListSpace,
    hops: Hops,
    byte: u64,
    steps: &mut Steps<L>,
) -> Result<String> {
    let to = Located { hops, byte, ty: 0 };
    match view.follow(space, &to, steps) {
        Ok(Led::At(end)) => Ok(format!(in alloc; "type {} at {:x}", end.ty(), end.at())?),
        Ok(Led::Null(place, at)) => {
            let word = place.va.context("no address")?;
            Ok(format!(in alloc; "null at {at:x} by {word:x}")?)
        }
        Err(stop) => Ok(missing_text(alloc, stop)?),
    }
}

// The address of a part.
fn part(alloc: Global, view: &View<'_>, hops: Hops, byte: u64) -> Result<String> {
    match view.part(&Located { hops, byte, ty: 0 }) {
        Some(part) => Ok(format!(in alloc; "{:x}", part.at())?),
        None => Ok(String::from_str(alloc, "none")?),
    }
}

// An element's type and its address.
fn element(alloc: Global, btf: &Btf, ty: u32, at: u64, index: u64) -> Result<String> {
    ensure!(ty <= btf.count(), "no such type");
    match View::new(btf, ty, at).element(index) {
        Some(part) => Ok(format!(in alloc; "type {} at {:x}", part.ty(), part.at())?),
        None => Ok(String::from_str(alloc, "none")?),
    }
}
