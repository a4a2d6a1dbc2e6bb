// The steps of a path, and where they lead.
ghost use Rattle.std.specs.Prelude.{◌≡◌, ℕ, ◌+◌, ◌*◌, ◌^◌, ◌<◌, ◌≤◌, ◌∷◌, [], length, take, drop, option_map, All, IfOk, IfSome};
ghost use Rattle.kc_layout.specs.HopList.{hop_list};
ghost use Rattle.kc_layout.specs.Places.{start_of, if_near, bare, behind, member_step, element_step, whole_byte, with_hop, follow, member_of, take_step, IsReached, end_of};
ghost use Rattle.kc_layout.specs.Bare.{target_numbered};
ghost use Rattle.kc_layout.specs.PathViews.{step_view};
ghost use Rattle.kc_word.specs.Answers.{Gives};
ghost use Rattle.kc_layout.specs.Views.{place_view, end_view, byte_view, bits_view, number_view};
ghost use Rattle.kc_layout.specs.Ends.{located, number_numbered, bits_at, bits_of, number_at, field};

use crate::bare::{MODIFIERS, array_of, compound_of, target_of, type_of, under};
use crate::fault::{PathFault, QRule};
use crate::member::{Search, find_member};
use crate::path::{PATH_BYTES, Step, cut_step, is_path};
use crate::place::{End, Field, Hops, Located, Number, Place, Spot};
use crate::size::size_of;
use kc_btf::{Btf, Kind};
use kc_word::Bits;

/// Bits from here on aren't counted.
const FAR: u64 = 1 << 36;

// The type under the modifiers of a type.
pub(crate) fn bare_of(btf: &Btf, ty: u32) -> Result<u32, QRule>
    requires { ty ≤ length btf.now.records }
    ensures exact { result ≡ bare btf.now ty }
    ensures inside { IfOk result (λ id. id ≤ length btf.now.records) }
{
    under(btf, ty, MODIFIERS).ok_or(QRule::Q5)
}

// A spot, where its bit is counted.
fn if_near(spot: Spot) -> Result<Spot, QRule>
    ensures exact { result ≡ if_near spot }
    ensures near { IfOk result (λ near. near.bit < 2 ^ 36) }
    ensures same { IfOk result (λ near. near.ty ≡ spot.ty) }
{
    if spot.bit < FAR {
        Ok(spot)
    } else {
        Err(QRule::Q5)
    }
}

// The member with a name.
#[tactic(auto, unfolding(crate::specs::Places::member_step))]
pub(crate) fn member_step(btf: &Btf, spot: Spot, name: &[u8]) -> Result<Spot, QRule>
    requires { IsReached (length btf.now.records) spot }
    ensures exact { result ≡ member_step btf.now spot name.now }
    ensures reached { IfOk result (IsReached (length btf.now.records)) }
{
    let bare = bare_of(btf, spot.ty)?;
    let t = compound_of(btf, bare).ok_or(QRule::Q3)?;
    match find_member(btf, t, name, spot.bit) {
        Search::Found(found) => if_near(found),
        Search::Absent(_) => Err(QRule::Q2),
        Search::Beyond => Err(QRule::Q5),
    }
}

// An element of an array.
#[tactic(auto, unfolding(crate::specs::Places::element_step))]
pub(crate) fn element_step(btf: &Btf, spot: Spot, index: u64) -> Result<Spot, QRule>
    requires { IsReached (length btf.now.records) spot }
    ensures exact { result ≡ element_step btf.now spot index }
    ensures reached { IfOk result (IsReached (length btf.now.records)) }
{
    let bare = bare_of(btf, spot.ty)?;
    let array = array_of(btf, bare).ok_or(QRule::Q3)?;
    if index >= u64::from(array.nelems) {
        return Err(QRule::Q4);
    }
    match size_of(btf, array.ty) {
        Some(size) => element_spot(spot.bit, index, size, array.ty),
        None => Err(QRule::Q5),
    }
}

// The spot of an element of a size, where its bit is counted.
fn element_spot(bit: u64, index: u64, size: u64, ty: u32) -> Result<Spot, QRule>
    requires near { bit < 2 ^ 36 }
    requires index { index < 2 ^ 32 }
    requires size { size < 2 ^ 32 }
    ensures exact { result ≡ if_near (record { bit = bit + 8 * (index * size); width = 0; ty = ty }) }
    ensures near { IfOk result (λ near. near.bit < 2 ^ 36) }
    ensures same { IfOk result (λ near. near.ty ≡ ty) }
{
    let bytes = index * size;
    if bytes >= FAR {
        return Err(QRule::Q5);
    }
    if_near(Spot {
        bit: bit + 8 * bytes,
        width: 0,
        ty,
    })
}

// The byte at which a spot begins that is no bit-field.
pub(crate) fn whole_byte(spot: Spot) -> Option<u64>
    ensures { result ≡ whole_byte spot }
{
    if spot.width == 0 && spot.bit % 8 == 0 {
        Some(spot.bit / 8)
    } else {
        None
    }
}

// Follows the pointer at a place.
#[tactic(auto, unfolding(crate::specs::Places::follow))]
fn follow(btf: &Btf, place: &Place) -> Result<Place, QRule>
    requires { IsReached (length btf.now.records) place.now.spot }
    ensures exact { Gives place_view result (follow btf.now (place_view place.now)) }
    ensures reached { IfOk result (λ next. IsReached (length btf.now.records) next.spot) }
{
    let bare = bare_of(btf, place.spot.ty)?;
    let target = target_of(btf, bare).ok_or(QRule::Q7)?;
    let byte = whole_byte(place.spot).ok_or(QRule::Q7)?;
    let hops = place.hops.push(byte).ok_or(QRule::Q5)?;
    Ok(Place {
        hops,
        spot: start_of(target),
    })
}

// The first bit of a type.
pub(crate) fn start_of(ty: u32) -> Spot
    ensures { result ≡ start_of ty }
{
    Spot {
        bit: 0,
        width: 0,
        ty,
    }
}

// The member with a name at a place.
fn member_of(btf: &Btf, place: &Place, name: &[u8]) -> Result<Place, QRule>
    requires { IsReached (length btf.now.records) place.now.spot }
    ensures exact { Gives place_view result (member_of btf.now name.now (place_view place.now)) }
    ensures reached { IfOk result (λ next. IsReached (length btf.now.records) next.spot) }
{
    let spot = member_step(btf, place.spot, name)?;
    Ok(Place {
        hops: place.hops,
        spot,
    })
}

// An element at a place.
fn element_of(btf: &Btf, place: &Place, index: u64) -> Result<Place, QRule>
    requires { IsReached (length btf.now.records) place.now.spot }
    ensures exact { Gives place_view result (behind (hop_list place.now.hops) (element_step btf.now place.now.spot index)) }
    ensures reached { IfOk result (λ next. IsReached (length btf.now.records) next.spot) }
{
    let spot = element_step(btf, place.spot, index)?;
    Ok(Place {
        hops: place.hops,
        spot,
    })
}

// One step from a place.
pub(crate) fn take_step(btf: &Btf, place: &Place, step: Step<'_>) -> Result<Place, QRule>
    requires { IsReached (length btf.now.records) place.now.spot }
    ensures exact { Gives place_view result (take_step btf.now (place_view place.now) (step_view step.entry)) }
    ensures reached { IfOk result (λ next. IsReached (length btf.now.records) next.spot) }
{
    match step {
        Step::Member(name) => member_of(btf, place, name),
        Step::Element(index) => element_of(btf, place, index),
        Step::Pointee(name) => {
            let pointee = follow(btf, place)?;
            member_of(btf, &pointee, name)
        }
    }
}

// Takes the steps of a path from the first bit of a type.
pub(crate) fn walk(btf: &Btf, id: u32, path: &[u8]) -> Result<End, PathFault>
    requires { id ≤ length btf.now.records }
    ensures exact { Gives end_view result (end_of btf.now id path.now) }
    ensures reached { IfOk result (λ end. IsReached (length btf.now.records) end.place.spot) }
{
    if !is_path(path) {
        return Err(PathFault {
            rule: QRule::Q8,
            step: 0,
        });
    }
    let mut place = Place {
        hops: Hops::new(0, 0, 0, 0, 0),
        spot: start_of(id),
    };
    let mut rest = path;
    for taken in 0..PATH_BYTES {
        let Some(cut) = cut_step(rest, taken == 0) else {
            return Ok(End { place, step: taken });
        };
        match take_step(btf, &place, cut.step) {
            Ok(next) => place = next,
            Err(rule) => {
                return Err(PathFault {
                    rule,
                    step: taken + 1,
                });
            }
        }
        rest = cut.rest;
    }
    Ok(End {
        place,
        step: PATH_BYTES,
    })
}

/// The byte that a path leads to from a type's first. A path is empty, or a name and then any of `.name`,
/// `[decimal]` and `->name`. The last type is told as it stands, with its modifiers.
///
/// # Errors
///
/// `Q8` where the text isn't a path, and else the first step that breaks a rule, with the rule; at the last
/// step `Q6` too, where no whole byte begins there or it is a bit-field.
pub fn locate(btf: &Btf, id: u32, path: &[u8]) -> Result<Located, PathFault>
    requires { id ≤ length btf.now.records }
    ensures exact { Gives byte_view result (located btf.now id path.now) }
    ensures near { IfOk result (λ place. place.byte < 2 ^ 33) }
    ensures there { IfOk result (λ place. place.ty ≤ length btf.now.records) }
{
    let end = walk(btf, id, path)?;
    match whole_byte(end.place.spot) {
        Some(byte) => Ok(Located {
            hops: end.place.hops,
            byte,
            ty: end.place.spot.ty,
        }),
        None => Err(PathFault {
            rule: QRule::Q6,
            step: end.step,
        }),
    }
}

/// The number that a path leads to from a type's first bit: a whole number or an enum, or a pointer, of 1 to
/// 64 bits. A bit-field has its own width; a whole number that isn't one lies in its type as the type says.
///
/// # Errors
///
/// As `locate`; at the last step `Q5` where its type has more than 32 modifiers or its first bit is 2^36 or
/// above, and `Q6` where no such number lies there.
pub fn resolve(btf: &Btf, id: u32, path: &[u8]) -> Result<Field, PathFault>
    requires { id ≤ length btf.now.records }
    ensures exact { Gives number_view result (field btf.now id path.now) }
    ensures there { IfOk result (λ number. number.ty ≤ length btf.now.records) }
{
    let end = walk(btf, id, path)?;
    match number_at(btf, &end.place) {
        Ok(field) => Ok(field),
        Err(rule) => Err(PathFault {
            rule,
            step: end.step,
        }),
    }
}

// The number at a place.
#[tactic(auto, unfolding(crate::specs::Ends::number_at))]
fn number_at(btf: &Btf, place: &Place) -> Result<Field, QRule>
    requires { IsReached (length btf.now.records) place.now.spot }
    ensures exact { Gives number_view result (number_at btf.now (place_view place.now)) }
    ensures same { IfOk result (λ number. number.ty ≡ place.now.spot.ty) }
{
    let bare = bare_of(btf, place.spot.ty)?;
    let number = number_of(btf, bare).ok_or(QRule::Q6)?;
    let bits = bits_of(place.spot, number)?;
    Ok(Field {
        hops: place.hops,
        bits,
        ty: place.spot.ty,
    })
}

// How a number of a type lies.
fn number_of(btf: &Btf, id: u32) -> Option<Number>
    requires { id ≤ length btf.now.records }
    ensures { result ≡ number_numbered btf.now id }
{
    let t = type_of(btf, id)?;
    match t.kind {
        Kind::Int => {
            let int = btf.int(t);
            Some(Number {
                offset: int.offset,
                width: u64::from(int.bits),
                signed: int.signed,
            })
        }
        Kind::Ptr => Some(Number {
            offset: 0,
            width: 64,
            signed: false,
        }),
        Kind::Enum | Kind::Enum64 => Some(Number {
            offset: 0,
            width: 8 * u64::from(t.rest),
            signed: t.flag,
        }),
        _ => None,
    }
}

// The bits of a number at a spot.
fn bits_of(spot: Spot, number: Number) -> Result<Bits, QRule>
    requires { spot.bit < 2 ^ 36 }
    ensures { Gives bits_view result (bits_of spot number) }
{
    if spot.width == 0 {
        bits_at(
            spot.bit + u64::from(number.offset),
            number.width,
            number.signed,
        )
    } else {
        bits_at(spot.bit, u64::from(spot.width), number.signed)
    }
}

// So many bits from a bit on, where they are counted and are a number's.
fn bits_at(bit: u64, width: u64, signed: bool) -> Result<Bits, QRule>
    ensures { Gives bits_view result (bits_at bit width signed) }
{
    if bit >= 1 << 36 {
        return Err(QRule::Q5);
    }
    if width == 0 || width > 64 {
        return Err(QRule::Q6);
    }
    Ok(Bits {
        bit,
        width: width as u8,
        signed,
    })
}
