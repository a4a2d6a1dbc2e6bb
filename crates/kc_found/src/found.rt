// Violations, and why a walk ends early.
ghost use Rattle.std.specs.Prelude.{◌≡◌, ◌<◌, ◌^◌, ◌++◌, ◌∷◌, [], None, false, length, map, option_to_list, IfErr, IfOk, OnOk};
ghost use Rattle.kc_memory.specs.Places.{place_of, entry_places};
ghost use Rattle.kc_found.specs.Violations.{breaks, breaks_field, missed, missed_behind, places_by, is_of_reading};
ghost use Rattle.kc_found.specs.Walks.{IsBroken, IsStopped, IsStoppedBehind, OnBroken, OnWalkFault};
ghost use Rattle.kc_found.specs.declared.found.WalkStop.TheVariants as ends;

use crate::asked::Asked;
use crate::items::{Places, Walked};
use kc_memory::{Miss, Place, Rule, Scalar, Stop, VWord, entry_place, place_of};
use kc_word::NoMemory;
use std::alloc::Global;
use std::marker::Model;

/// The first violation of a walk. A stop is there exactly for the rules M1 to M6. The rule is then the stop's, and `at`
/// is the address at which the reading stopped.
#[derive(Drop)]
pub struct Found {
    /// The number of the audit in its plan.
    pub audit: u32,
    /// The virtual address at which the walk starts.
    pub start: u64,
    /// The rule that is broken.
    pub rule: Rule,
    /// The virtual address that the violation is about.
    pub at: u64,
    /// The number that the rule asks for, in 64 bits, or `None` where it names none: of most rules what the word or the
    /// field should be, of R4 the bound, of R5 and U6 the count, of T7 the leader.
    pub expected: Option<u64>,
    /// Where reading stopped.
    pub stop: Option<Miss>,
    /// The words that show it.
    pub places: Places,
}

impl Model for Found {
    ghost use Rattle.kc_found.specs.Violations.{Violation, IsStopOf};

    ghost Value = { Violation };

    ghost view = { λ f. record { audit = f.audit; start = f.start; rule = f.rule; at = f.at; expected = f.expected; stop = f.stop; places = f.places } };

    ghost invariant = { λ f. IsStopOf f.rule f.at f.stop };
}

/// Why a walk ends early.
#[derive(Drop)]
pub enum WalkStop {
    /// The structure breaks a rule.
    Broken(Found),
    /// Reading the dump failed. The count of faults rose.
    Fault,
    /// No memory was left.
    NoMemory,
}

impl From<NoMemory> for WalkStop {
    ghost from_gives = { λ _ stop. stop ≡ ends.NoMemory };

    fn from(_: NoMemory) -> Self {
        WalkStop::NoMemory
    }
}

/// Adds the address of a node to the walked list.
///
/// # Errors
///
/// Out of memory.
pub fn push_node(walked: &mut Walked, node: u64) -> Result<(), WalkStop>
    ensures added { OnOk result (walked.new ≡ walked.old ++ node ∷ []) }
    ensures fits { OnOk result (length walked.new < 2 ^ 64) }
    ensures memory { IfErr result (λ stop. stop ≡ WalkStop.NoMemory) }
    ensures broken { OnBroken result ⊥ }
    ensures no_fault { OnWalkFault result ⊥ }
{
    walked.push(node)?;
    Ok(())
}

/// The violation of a rule that these places show, at a virtual address.
pub fn broken_by(
    asked: &Asked,
    rule: Rule,
    at: u64,
    expected: Option<u64>,
    places: Places,
) -> WalkStop
    requires { is_of_reading rule ≡ false }
    ensures { result ≡ WalkStop.Broken (record {
      audit = asked.now.audit;
      start = asked.now.start;
      rule = rule;
      at = at;
      expected = expected;
      stop = None;
      places = places;
    }) }
{
    WalkStop::Broken(Found {
        audit: asked.audit,
        start: asked.start,
        rule,
        at,
        expected,
        stop: None,
        places,
    })
}

/// The violation of a rule that one word shows, at the word's address. It is out of memory where none is left for the
/// place.
pub fn broken_at(
    alloc: Global,
    asked: &Asked,
    rule: Rule,
    word: &VWord,
    expected: Option<u64>,
) -> WalkStop
    requires { is_of_reading rule ≡ false }
    ensures { IsBroken result (breaks asked.now rule word.now expected) }
{
    let mut places = Places::new(alloc);
    match places.push(place_of(word)) {
        Ok(()) => broken_by(asked, rule, word.va, expected, places),
        Err(NoMemory) => WalkStop::NoMemory,
    }
}

// Adds a place, where there is one.
fn push_place(places: &mut Places, place: Option<Place>) -> Result<(), NoMemory>
    ensures { OnOk result (places.new ≡ places.old ++ option_to_list place) }
{
    match place {
        Some(place) => places.push(place),
        None => Ok(()),
    }
}

// The places of the one or two words of a number.
fn field_places(alloc: Global, number: &Scalar) -> Result<Places, NoMemory>
    ensures { IfOk result (λ places. places ≡ number.now.first ∷ option_to_list number.now.second) }
{
    let mut places = Places::new(alloc);
    places.push(number.first)?;
    push_place(&mut places, number.second)?;
    Ok(places)
}

/// The violation of a rule that a number of memory shows, about the address `at`: of a field that of its first byte, of
/// U4 the slab's, of U5 the pointer. It is out of memory where none is left for the places.
pub fn broken_field(
    alloc: Global,
    asked: &Asked,
    rule: Rule,
    at: u64,
    number: &Scalar,
    expected: Option<u64>,
) -> WalkStop
    requires { is_of_reading rule ≡ false }
    ensures { IsBroken result (breaks_field asked.now rule at number.now expected) }
{
    match field_places(alloc, number) {
        Ok(places) => broken_by(asked, rule, at, expected, places),
        Err(NoMemory) => WalkStop::NoMemory,
    }
}

// The place of the word that led to a site, and then that of the refused paging entry.
fn missed_places(alloc: Global, miss: &Miss, led: Option<VWord>) -> Result<Places, NoMemory>
    ensures { IfOk result (λ places. places ≡ map place_of (option_to_list led) ++ entry_places miss.now.pa miss.now.entry) }
{
    let mut places = Places::new(alloc);
    push_place(&mut places, led.map(|word| place_of(&word)))?;
    push_place(&mut places, entry_place(miss))?;
    Ok(places)
}

// The violation by a word that can't be read, after the word that led to its site.
fn missed_at(alloc: Global, asked: &Asked, miss: Miss, led: Option<VWord>) -> WalkStop
    ensures { IsBroken result (missed asked.now led miss) }
{
    match missed_places(alloc, &miss, led) {
        Ok(places) => WalkStop::Broken(Found {
            audit: asked.audit,
            start: asked.start,
            rule: miss.rule,
            at: miss.va,
            expected: None,
            stop: Some(miss),
            places,
        }),
        Err(NoMemory) => WalkStop::NoMemory,
    }
}

// The places of the one or two words of a number, where there is one, and then that of the refused paging entry.
fn behind_places(alloc: Global, miss: &Miss, led: Option<Scalar>) -> Result<Places, NoMemory>
    ensures { IfOk result (λ places. places ≡ places_by led ++ entry_places miss.now.pa miss.now.entry) }
{
    let mut places = match led {
        Some(number) => field_places(alloc, &number)?,
        None => Places::new(alloc),
    };
    push_place(&mut places, entry_place(miss))?;
    Ok(places)
}

// The violation by a word that can't be read, after the number that led to its site.
fn missed_behind(alloc: Global, asked: &Asked, miss: Miss, led: Option<Scalar>) -> WalkStop
    ensures { IsBroken result (missed_behind asked.now (places_by led) miss) }
{
    match behind_places(alloc, &miss, led) {
        Ok(places) => WalkStop::Broken(Found {
            audit: asked.audit,
            start: asked.start,
            rule: miss.rule,
            at: miss.va,
            expected: None,
            stop: Some(miss),
            places,
        }),
        Err(NoMemory) => WalkStop::NoMemory,
    }
}

/// How a walk ends at a word that can't be read, after the number that led to its site, as with `stopped` after a word.
/// It is out of memory where none is left for the places.
pub fn stopped_behind(alloc: Global, asked: &Asked, stop: Stop, led: Option<Scalar>) -> WalkStop
    ensures { IsStoppedBehind result asked.now (places_by led) stop }
{
    match stop {
        Stop::Miss(miss) => missed_behind(alloc, asked, miss, led),
        Stop::Fault => WalkStop::Fault,
    }
}

/// How a walk ends at a word that can't be read, after the word that led to its site: by the rule that stopped the
/// reading, or by its failure. It is out of memory where none is left for the places.
pub fn stopped(alloc: Global, asked: &Asked, stop: Stop, led: Option<VWord>) -> WalkStop
    ensures { IsStopped result asked.now led stop }
{
    match stop {
        Stop::Miss(miss) => missed_at(alloc, asked, miss, led),
        Stop::Fault => WalkStop::Fault,
    }
}
