// Free lists.
ghost use Rattle.std.specs.Prelude.{◌≡◌, ℕ, ◌+◌, ◌*◌, ◌^◌, ◌<◌, ◌≤◌, ◌∷◌, ◌++◌, [], length, None, Ok, Some, IfOk, IfSome, OnOk};
ghost use Rattle.kc_memory.specs.Stays.{SpaceStays};
ghost use Rattle.kc_found.specs.FiniteLists.{FreeChain, NoFreeChain};
ghost use Rattle.kc_found.specs.FreeLists.{IsGrid, free_list, free_next, free_site, is_object, led_by, low_word, number_in, number_taken, places_taken, pointer_at, pointer_by};
ghost use Rattle.kc_found.specs.Trials.{passed};
ghost use Rattle.kc_found.specs.Violations.{places_by};
ghost use Rattle.kc_found.specs.Walks.{CountsWalkFaults, IsNamed, IsWalk, OnBroken, OnWalkFault, TakesAs, WalksAs, WithinSteps};

use kc_found::{
    Asked, Claims, FreeLed, Grid, Place, Rule, Scalar, Space, VWord, WalkStop, Walked,
    broken_field, decode, low_word, push_node, read_bits, stopped_behind, take_word,
};
use kc_word::{Bits, Steps};
use std::alloc::Global;
use std::sync::ledger::Ledger;

// The pointer that a number at an address stands for.
fn pointer_by(random: Option<u64>, at: u64, number: &Scalar) -> u64
    ensures { result ≡ pointer_by random at number.now }
{
    match random {
        Some(random) => decode(low_word(number), random, at),
        None => low_word(number),
    }
}

// An object begins at this address.
fn is_object(grid: &Grid, at: u64) -> bool
    requires { 1 ≤ grid.now.size }
    ensures { result ≡ is_object grid.now at }
{
    let above = at.wrapping_sub(grid.base);
    above % grid.size == 0 && above / grid.size < grid.objects
}

// The address of an object's free pointer.
fn pointer_at(grid: &Grid, object: u64) -> u64
    ensures { result ≡ pointer_at grid.now object }
{
    object.wrapping_add(grid.offset)
}

// Takes the word at a place.
fn take_place(
    alloc: Global,
    claims: &mut Claims,
    asked: &Asked,
    place: &Place,
) -> Result<(), WalkStop>
    ensures taken { IsWalk (λ _. claims.new)
        (passed {X = ℕ} claims.old (places_taken asked.now (place.now ∷ []))) result }
    ensures named { IsNamed result asked.now.audit asked.now.start }
    ensures no_fault { OnWalkFault result ⊥ }
{
    let word = VWord {
        va: place.va.unwrap_or(0),
        pa: place.pa,
        off: place.off,
        value: place.value,
    };
    take_word(alloc, claims, asked, &word)
}

// Takes the one or two words of a number, the lower one first.
fn take_number(
    alloc: Global,
    claims: &mut Claims,
    asked: &Asked,
    number: &Scalar,
) -> Result<(), WalkStop>
    ensures taken { IsWalk (λ _. claims.new)
        (passed {X = ℕ} claims.old (places_taken asked.now (places_by (Some number.now)))) result }
    ensures named { IsNamed result asked.now.audit asked.now.start }
    ensures no_fault { OnWalkFault result ⊥ }
{
    take_place(alloc, claims, asked, &number.first)?;
    match &number.second {
        Some(place) => take_place(alloc, claims, asked, place),
        None => Ok(()),
    }
}

// Reads the 64 bits at an address, to which `led` leads, and takes their words.
fn enter_number<S: Space, L: Ledger>(
    alloc: Global,
    space: &mut S,
    asked: &Asked,
    claims: &mut Claims,
    at: u64,
    led: Option<Scalar>,
    steps: &mut Steps<L>,
) -> Result<Scalar, WalkStop>
    ensures number { IfOk result (λ n. IfSome (S.image space.old) (λ i. number_in i at ≡ Ok n)) }
    ensures site { TakesAs (λ i. number_taken asked.now (places_by led) (number_in i at)) claims.old claims.new
        (S.image space.old) result }
    ensures named { IsNamed result asked.now.audit asked.now.start }
    ensures steps { steps.new ≤ steps.old + 2 * S.most space.old }
    ensures one_word { IfOk result (λ n. n.second ≡ None → steps.new ≤ steps.old + S.most space.old) }

    ensures stays { SpaceStays S.image S.files S.through S.most space.old space.new }
    ensures cause { CountsWalkFaults result (S.faults space.old) (S.faults space.new) }
{
    let bits = Bits {
        bit: 0,
        width: 64,
        signed: false,
    };
    let number = match read_bits(space, at, bits, steps) {
        Ok(number) => number,
        Err(stop) => return Err(stopped_behind(alloc, asked, stop, led)),
    };
    take_number(alloc, claims, asked, &number)?;
    Ok(number)
}

// The pointer that leads to a site, where it is shown.
fn led_by(led: &FreeLed) -> Option<Scalar>
    ensures { result ≡ led_by led.now }
{
    if led.is_first { None } else { Some(led.by) }
}

/// Enters the object that a pointer leads to, and gives its own pointer: rule U5 of the pointer that leads there, and then the free
/// pointer is read and its words are taken.
///
/// # Errors
///
/// The first violation, a failure of the space, whose count of faults then rose, or out of memory.
pub fn enter_object<S: Space, L: Ledger>(
    alloc: Global,
    space: &mut S,
    grid: &Grid,
    asked: &Asked,
    claims: &mut Claims,
    led: &FreeLed,
    steps: &mut Steps<L>,
) -> Result<Scalar, WalkStop>
    requires { 1 ≤ grid.now.size }
    ensures number { IfOk result (λ n. IfSome (S.image space.old)
        (λ i. number_in i (pointer_at grid.now led.now.to) ≡ Ok n)) }
    ensures site { TakesAs (λ i. free_site asked.now grid.now (number_in i (pointer_at grid.now led.now.to)) led.now)
        claims.old claims.new (S.image space.old) result }
    ensures named { IsNamed result asked.now.audit asked.now.start }
    ensures steps { steps.new ≤ steps.old + 2 * S.most space.old }

    ensures stays { SpaceStays S.image S.files S.through S.most space.old space.new }
    ensures cause { CountsWalkFaults result (S.faults space.old) (S.faults space.new) }
{
    if !is_object(grid, led.to) {
        return Err(broken_field(alloc, asked, Rule::U5, led.to, &led.by, None));
    }
    let at = pointer_at(grid, led.to);
    enter_number(alloc, space, asked, claims, at, led_by(led), steps)
}

/// What leads on from an object, by its pointer.
pub fn free_next(grid: &Grid, led: &FreeLed, number: Scalar) -> FreeLed
    ensures { result ≡ free_next grid.now led.now number }
{
    FreeLed {
        to: pointer_by(grid.random, pointer_at(grid, led.to), &number),
        by: number,
        is_first: false,
    }
}

/// The free objects of a slab, in the order of its free list, whose first pointer is the number `first`, plain. A
/// violation names the audit's number, and `start` as where the walk starts.
///
/// # Errors
///
/// The first violation, exactly where the free list has one; a failure of the space, whose count of faults then rose;
/// or out of memory.
pub fn free_walk<S: Space, L: Ledger>(
    alloc: Global,
    space: &mut S,
    grid: &Grid,
    first: Scalar,
    audit: u32,
    start: u64,
    steps: &mut Steps<L>,
) -> Result<Walked, WalkStop>
    requires { IsGrid grid.now }
    ensures walk { WalksAs (λ w. w) (λ i. free_list i grid.now first (record { audit = audit; start = start }))
        (S.image space.old) result }
    ensures finite { IfOk result (λ os. IfSome (S.image space.old)
        (λ i. FreeChain (number_in i) grid.now (low_word first.value) os)) }
    ensures none { OnBroken result
        (IfSome (S.image space.old) (λ i. NoFreeChain (number_in i) grid.now (low_word first.value))) }
    ensures named { IsNamed result audit start }
    ensures bound { WithinSteps (S.image space.old) (S.most space.old) steps.old steps.new }
    // At most two words at each object, and no other.
    ensures words { IfOk result (λ os. steps.new ≤ steps.old + S.most space.old * (2 * length os)) }

    ensures stays { SpaceStays S.image S.files S.through S.most space.old space.new }
    ensures cause { CountsWalkFaults result (S.faults space.old) (S.faults space.new) }
{
    let asked = Asked { audit, start };
    let mut claims = Claims::new(alloc);
    let mut walked = Walked::new(alloc);
    let mut led = FreeLed {
        to: low_word(&first),
        by: first,
        is_first: true,
    };
    while led.to != 0 {
        let number = match enter_object(alloc, space, grid, &asked, &mut claims, &led, steps) {
            Ok(number) => number,
            Err(stop) => return Err(stop),
        };
        push_node(&mut walked, led.to)?;
        led = free_next(grid, &led, number);
    }
    Ok(walked)
}
