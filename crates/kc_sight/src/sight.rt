// What is seen of an address.
ghost use Rattle.std.specs.Prelude.{◌≡◌, ◌≤◌, Ok, Err, IfOk};
ghost use Rattle.kc_memory.specs.Stays.{SpaceStays};
ghost use Rattle.kc_memory.specs.Translation.{vword};
ghost use Rattle.kc_sight.specs.Aliases.{aliases};
ghost use Rattle.kc_sight.specs.Looks.{FaultsAfter, LooksAs, words};
ghost use Rattle.kc_sight.specs.Sights.{near, page_start, word_start};

use crate::aliases::{Aliases, Rules, read_aliases};
use crate::entries::TableEntry;
use crate::words::{Seen, read_word, read_words};
use kc_found::ReadFailed;
use kc_memory::Space;
use kc_word::Steps;
use std::alloc::Global;
use std::sync::ledger::Ledger;

const NEAR: u64 = 4;

const WORDS_OF_PAGE: u64 = 512;

/// An address of a dump, and what is seen of it.
#[derive(Drop)]
pub struct Sight {
    /// The address.
    pub address: u64,
    /// The entries of the page tables on the way to the word that holds it, from the top table down.
    pub entries: Vec<TableEntry>,
    /// That word.
    pub word: Seen,
    /// The same physical word at other addresses.
    pub aliases: Aliases,
    /// It between four on each side.
    pub near: Vec<Seen>,
    /// All words of the 4096 bytes that hold it.
    pub page: Vec<Seen>,
}

/// Where the word begins that holds an address.
pub fn word_start(address: u64) -> u64
    ensures { result ≡ word_start address }
{
    address / 8 * 8
}

/// What is seen of an address, with the entries on the way to it. Where these weren't read, it reads nothing.
///
/// # Errors
///
/// A failure to read the dump; no memory was left.
pub fn read_sight<S: Space, L: Ledger>(
    alloc: Global,
    space: &mut S,
    address: u64,
    rules: &Rules,
    entries: Result<Vec<TableEntry>, ReadFailed>,
    steps: &mut Steps<L>,
) -> Result<Sight, ReadFailed>
    ensures address { IfOk result (λ sight. sight.address ≡ address) }
    ensures entries { IfOk result (λ sight. entries ≡ Ok sight.entries) }
    ensures word { LooksAs (λ sight. sight.word) (λ image. vword image (word_start address)) (S.image space.old) result }
    ensures aliases { LooksAs (λ sight. sight.aliases) (λ image. aliases image rules.now (vword image (word_start address))) (S.image space.old) result }
    ensures near { LooksAs (λ sight. sight.near.items) (λ image. near image address) (S.image space.old) result }
    ensures page { LooksAs (λ sight. sight.page.items) (λ image. words image (page_start address) 512) (S.image space.old) result }
    ensures stays { SpaceStays S.image S.files S.through S.most space.old space.new }
    ensures cause { FaultsAfter entries result (S.faults space.old) (S.faults space.new) }
{
    let entries = entries?;
    let word = read_word(space, word_start(address), steps)?;
    let aliases = read_aliases(space, &word, rules, steps)?;
    let first = word_start(address).wrapping_sub(8 * NEAR);
    let near = read_words(alloc, space, first, 2 * NEAR + 1, steps)?;
    let page = read_words(alloc, space, address / 4096 * 4096, WORDS_OF_PAGE, steps)?;
    Ok(Sight {
        address,
        entries,
        word,
        aliases,
        near,
        page,
    })
}
