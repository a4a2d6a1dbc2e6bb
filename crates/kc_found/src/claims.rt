// The physical words that a walk has taken.
ghost use Rattle.std.specs.Prelude.{◌≡◌, ◌+◌, ◌^◌, ◌<◌, List, [], length, not, if◌then◌else◌, IfOk, OnOk, OnErr};
ghost use Rattle.kc_found.specs.Taken.{is_taken, with_word};
ghost use Rattle.kc_found.specs.Blocks.{with_blocks, IsTable, Misses};

use crate::blocks::{Block, Spot, grown, more_blocks, spot_near};
use kc_word::NoMemory;
use std::alloc::Global;
use std::collections::BTreeSet;
use std::marker::Model;

/// The physical addresses of the words that a walk has taken. Contracts see them by rising address.
#[derive(Drop)]
pub struct Claims {
    alloc: Global,
    // Those that are multiples of 8, by blocks of eight: 16 bytes a block, and a table at most five eighths full.
    blocks: Vec<Block>,
    // Those that aren't multiples of 8, and those whose block had no place.
    others: BTreeSet<u64>,
    // How many words are taken.
    count: u64,
    // How many blocks more the table takes before it grows.
    room: u64,
    // The place that is looked at first: where the last block stood.
    near: usize,
}

impl Model for Claims {
    ghost use Rattle.std.specs.Prelude.{◌≡◌, List, ℕ, length};
    ghost use Rattle.kc_found.specs.Blocks.{IsTable, with_blocks};

    ghost Value = { List ℕ };

    ghost view = { λ c. with_blocks c.others.keys c.blocks.items };

    ghost invariant = { λ c. IsTable c.blocks.items × (c.count ≡ length (with_blocks c.others.keys c.blocks.items)) };
}

impl Claims {
    /// Nothing is taken. It takes no memory.
    pub fn new(alloc: Global) -> Self
        ensures { result ≡ [] }
    {
        Claims {
            alloc,
            blocks: Vec::new(alloc),
            others: BTreeSet::new(alloc),
            count: 0,
            room: 0,
            near: 0,
        }
    }

    /// Takes a physical address, or answers false exactly where it was taken before.
    ///
    /// # Errors
    ///
    /// Out of memory. Then, as on false, nothing changes.
    pub fn take(&mut self, pa: u64) -> Result<bool, NoMemory>
        ensures answer { IfOk result (λ new. new ≡ not (is_taken self.old pa)) }
        ensures taken { IfOk result (λ new. self.new ≡ (if new then with_word self.old pa else self.old)) }
        ensures more { IfOk result (λ new. length self.new ≡ length self.old + (if new then 1 else 0)) }
        ensures fits { OnOk result (length self.new < 2 ^ 64) }
        ensures kept { OnErr result (self.new ≡ self.old) }
    {
        if self.room == 0 {
            self.grow()?;
        }
        self.add(pa)
    }

    // Takes an address in the room that is there.
    fn add(&mut self, pa: u64) -> Result<bool, NoMemory>
        ensures answer { IfOk result (λ new. new ≡ not (is_taken self.old pa)) }
        ensures taken { IfOk result (λ new. self.new ≡ (if new then with_word self.old pa else self.old)) }
        ensures more { IfOk result (λ new. length self.new ≡ length self.old + (if new then 1 else 0)) }
        ensures fits { OnOk result (length self.new < 2 ^ 64) }
        ensures kept { OnErr result (self.new ≡ self.old) }
    {
        let Some(count) = self.count.checked_add(1) else {
            return Err(NoMemory);
        };
        let new = put(
            &mut self.blocks,
            &mut self.others,
            &mut self.room,
            &mut self.near,
            pa,
        )?;
        if new {
            self.count = count;
        }
        Ok(new)
    }

    // Makes room for more blocks. Where one has no place in a larger table, the table stays as it is from now on.
    fn grow(&mut self) -> Result<(), NoMemory>
        ensures { self.new ≡ self.old }
    {
        match grown(self.alloc, &self.blocks)? {
            Some(blocks) => {
                self.room = more_blocks(self.blocks.len(), blocks.len());
                self.blocks = blocks;
            }
            None => self.room = u64::MAX,
        }
        Ok(())
    }
}

// Whether an address is among the others.
fn is_other(others: &BTreeSet<u64>, pa: u64) -> bool
    ensures { result ≡ is_taken others.now.keys pa }
{
    !others.is_empty() && others.contains(&pa)
}

// Takes an address.
#[tactic(auto, using(crate::proofs::Stored::blocks_stay))]
fn put(
    blocks: &mut Vec<Block>,
    others: &mut BTreeSet<u64>,
    room: &mut u64,
    near: &mut usize,
    pa: u64,
) -> Result<bool, NoMemory>
    requires { IsTable blocks.old.items }
    ensures table { IsTable blocks.new.items }
    ensures answer { IfOk result (λ new. new ≡ not (is_taken (with_blocks others.old.keys blocks.old.items) pa)) }
    ensures words { IfOk result (λ new. with_blocks others.new.keys blocks.new.items ≡ (if new then with_word (with_blocks others.old.keys blocks.old.items) pa else with_blocks others.old.keys blocks.old.items)) }
    ensures kept { OnErr result (with_blocks others.new.keys blocks.new.items ≡ with_blocks others.old.keys blocks.old.items) }
{
    let number = pa / 64;
    let word = (pa / 8 % 8) as usize;
    if pa % 8 != 0 {
        return put_other(blocks, others, pa);
    }
    match spot_near(blocks, *near, number) {
        Spot::Here(place) => {
            let mut words = blocks[place].words;
            if words[word] {
                return Ok(false);
            }
            if is_other(others, pa) {
                return Ok(false);
            }
            *near = place;
            words[word] = true;
            blocks[place] = Block { number, words };
            Ok(true)
        }
        Spot::Free(place) => {
            if is_other(others, pa) {
                return Ok(false);
            }
            *near = place;
            let mut words = [false; 8];
            words[word] = true;
            blocks[place] = Block { number, words };
            *room = room.saturating_sub(1);
            Ok(true)
        }
        Spot::Nowhere => put_other(blocks, others, pa),
    }
}

// Takes an address that no block has.
#[tactic(auto, using(crate::proofs::Stored::blocks_then, crate::proofs::Stored::misses_same, crate::proofs::Rising::found_by_order))]
fn put_other(blocks: &Vec<Block>, others: &mut BTreeSet<u64>, pa: u64) -> Result<bool, NoMemory>
    requires { Misses blocks.now.items pa }
    ensures answer { IfOk result (λ new. new ≡ not (is_taken (with_blocks others.old.keys blocks.now.items) pa)) }
    ensures words { IfOk result (λ new. with_blocks others.new.keys blocks.now.items ≡ (if new then with_word (with_blocks others.old.keys blocks.now.items) pa else with_blocks others.old.keys blocks.now.items)) }
    ensures kept { OnErr result (with_blocks others.new.keys blocks.now.items ≡ with_blocks others.old.keys blocks.now.items) }
{
    match others.insert(pa) {
        Ok(true) => Ok(true),
        Ok(false) => Ok(false),
        Err(_) => Err(NoMemory),
    }
}
