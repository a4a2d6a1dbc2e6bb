// The other addresses of the same physical word that the kernel has by rule.
ghost use Rattle.std.specs.Prelude.{◌≡◌, Ok, option_map};
ghost use Rattle.std.specs.Result.{result_ok};
ghost use Rattle.kc_memory.specs.Stays.{SpaceStays};
ghost use Rattle.kc_sight.specs.Aliases.{alias_at, aliases, by_direct, by_image, direct_base, fixed_base, same_word};
ghost use Rattle.kc_sight.specs.Looks.{LooksAs};
ghost use Rattle.kc_found.specs.Failures.{CountsFailures};

use crate::symbol::IMAGE_START;
use crate::words::{Seen, read_word};
use kc_found::ReadFailed;
use kc_memory::{Space, VWord};
use kc_syms::SymFault;
use kc_word::Steps;
use std::sync::ledger::Ledger;

/// What the kernel's rules for addresses take from the dump's notes and the map.
#[derive(Clone, Copy, Debug, PartialEq, Eq)]
pub struct Rules {
    /// The address at run time of the variable `page_offset_base`, where the direct map begins; a kernel built without
    /// it has a fixed address.
    pub direct: Result<u64, SymFault>,
    /// What is added to an address of the kernel's image, less 0xffffffff80000000, to get its physical address; in bytes, modulo 2^64.
    pub phys_base: u64,
    /// Five levels of page tables, and else four.
    pub five: bool,
}

/// The same physical word at other addresses, where it is read there.
#[derive(Clone, Copy, Debug, PartialEq, Eq)]
pub struct Aliases {
    /// In the direct map of all physical memory.
    pub direct: Option<VWord>,
    /// In the kernel's image.
    pub image: Option<VWord>,
}

// Where the direct map begins that has no variable (page_64_types.h).
fn fixed_base(five: bool) -> u64
    ensures { result ≡ fixed_base five }
{
    if five {
        0xff11_0000_0000_0000
    } else {
        0xffff_8880_0000_0000
    }
}

// The number that a word holds, where it is there.
fn value_in(seen: Seen) -> Option<u64>
    ensures { result ≡ option_map (λ w. w.value) (result_ok seen) }
{
    match seen {
        Ok(word) => Some(word.value),
        Err(_) => None,
    }
}

// Where the direct map begins.
fn read_base<S: Space, L: Ledger>(
    space: &mut S,
    rules: &Rules,
    steps: &mut Steps<L>,
) -> Result<Option<u64>, ReadFailed>
    ensures base { LooksAs (λ b. b) (λ image. direct_base image rules.now.five rules.now.direct) (S.image space.old) result }
    ensures stays { SpaceStays S.image S.files S.through S.most space.old space.new }
    ensures cause { CountsFailures result (S.faults space.old) (S.faults space.new) }
{
    match rules.direct {
        Ok(at) => Ok(value_in(read_word(space, at, steps)?)),
        Err(SymFault::S2) => Ok(Some(fixed_base(rules.five))),
        Err(SymFault::S3(_, _)) => Ok(None),
    }
}

// A word that was read at another address, where it is the same physical word.
fn same_word(pa: u64, seen: Seen) -> Option<VWord>
    ensures { result ≡ same_word pa seen }
{
    match seen {
        Ok(word) if word.pa == pa => Some(word),
        _ => None,
    }
}

// The same physical word at another address.
fn read_alias<S: Space, L: Ledger>(
    space: &mut S,
    word: &VWord,
    at: u64,
    steps: &mut Steps<L>,
) -> Result<Option<VWord>, ReadFailed>
    ensures alias { LooksAs (λ w. w) (λ image. alias_at image word.now at) (S.image space.old) result }
    ensures stays { SpaceStays S.image S.files S.through S.most space.old space.new }
    ensures cause { CountsFailures result (S.faults space.old) (S.faults space.new) }
{
    if at == word.va {
        return Ok(None);
    }
    Ok(same_word(word.pa, read_word(space, at, steps)?))
}

// The same in the direct map, which begins at this address.
fn read_direct<S: Space, L: Ledger>(
    space: &mut S,
    word: &VWord,
    base: Option<u64>,
    steps: &mut Steps<L>,
) -> Result<Option<VWord>, ReadFailed>
    ensures alias { LooksAs (λ w. w) (λ image. by_direct image word.now base) (S.image space.old) result }
    ensures stays { SpaceStays S.image S.files S.through S.most space.old space.new }
    ensures cause { CountsFailures result (S.faults space.old) (S.faults space.new) }
{
    match base {
        Some(base) => read_alias(space, word, base.wrapping_add(word.pa), steps),
        None => Ok(None),
    }
}

// The same in the kernel's image.
fn read_image<S: Space, L: Ledger>(
    space: &mut S,
    word: &VWord,
    base: u64,
    steps: &mut Steps<L>,
) -> Result<Option<VWord>, ReadFailed>
    ensures alias { LooksAs (λ w. w) (λ image. by_image image word.now base) (S.image space.old) result }
    ensures stays { SpaceStays S.image S.files S.through S.most space.old space.new }
    ensures cause { CountsFailures result (S.faults space.old) (S.faults space.new) }
{
    let at = IMAGE_START.wrapping_add(word.pa).wrapping_sub(base);
    read_alias(space, word, at, steps)
}

// The aliases of a word.
fn read_both<S: Space, L: Ledger>(
    space: &mut S,
    word: &VWord,
    rules: &Rules,
    steps: &mut Steps<L>,
) -> Result<Aliases, ReadFailed>
    ensures aliases { LooksAs (λ a. a) (λ image. aliases image rules.now (Ok word.now)) (S.image space.old) result }
    ensures stays { SpaceStays S.image S.files S.through S.most space.old space.new }
    ensures cause { CountsFailures result (S.faults space.old) (S.faults space.new) }
{
    let base = read_base(space, rules, steps)?;
    let direct = read_direct(space, word, base, steps)?;
    let image = read_image(space, word, rules.phys_base, steps)?;
    Ok(Aliases { direct, image })
}

/// The aliases of a word that may not be there: each is an address that the kernel's rules give to its physical address, where the
/// page tables lead to the same word.
///
/// # Errors
///
/// A failure to read the dump.
pub fn read_aliases<S: Space, L: Ledger>(
    space: &mut S,
    word: &Seen,
    rules: &Rules,
    steps: &mut Steps<L>,
) -> Result<Aliases, ReadFailed>
    ensures aliases { LooksAs (λ a. a) (λ image. aliases image rules.now word.now) (S.image space.old) result }
    ensures stays { SpaceStays S.image S.files S.through S.most space.old space.new }
    ensures cause { CountsFailures result (S.faults space.old) (S.faults space.new) }
{
    match word {
        Ok(word) => read_both(space, word, rules, steps),
        Err(_) => Ok(Aliases {
            direct: None,
            image: None,
        }),
    }
}
