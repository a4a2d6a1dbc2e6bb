// Chains whose lists are given.
ghost use Rattle.std.specs.Prelude.{◌≡◌, drop, false, ⊤, IfOk};
ghost use Rattle.kc_memory.specs.Translation.{vword};
ghost use Rattle.kc_found.specs.Violations.{is_of_reading};
ghost use Rattle.kc_found.specs.Walks.{OnBroken, OnWalkFault};
ghost use Rattle.kc_steps.specs.Given.{free_given, hash_given, misfit, ring_given};
ghost use Rattle.kc_list.specs.Listed.{is_hash_chain, is_ring};
ghost use Rattle.kc_by_lists.specs.Ends.{ended};
ghost use Rattle.kc_by_lists.specs.Tests.{is_free_list};

use crate::free::test_free_list;
use kc_found::{
    Asked, Grid, HShape, Items, ListShape, Places, Rule, Scalar, Space, TestStop, WalkStop, Walked,
    broken_by, low_word,
};
use kc_list::{test_chain, test_ring};
use kc_steps::{Chains, HashChains, Rings};
use kc_word::Steps;
use std::alloc::Global;
use std::sync::ledger::Ledger;

/// Chains come by lists that are given: each takes the next one, where that is its own. A chain without its list is told as a violation
/// that no word shows.
#[derive(Drop)]
pub struct GivenLists<'l> {
    /// The lists, in the order in which the chains are asked for.
    pub lists: &'l Items<Walked>,
    /// How many of them were taken.
    pub at: usize,
}

// Another list of the same addresses.
fn copy_of(alloc: Global, list: &Walked) -> Result<Walked, WalkStop>
    ensures copied { IfOk result (λ copy. copy ≡ list.now) }
    ensures broken { OnBroken result ⊥ }
    ensures no_fault { OnWalkFault result ⊥ }
{
    Ok(list.copied(alloc)?)
}

// How a walk ends at a chain that isn't its list.
fn ended(alloc: Global, asked: &Asked, rule: Rule, at: u64, halt: TestStop) -> WalkStop
    requires { is_of_reading rule ≡ false }
    ensures { result ≡ ended asked.now rule at halt }
{
    match halt {
        TestStop::Unfit => broken_by(asked, rule, at, None, Places::new(alloc)),
        TestStop::Fault => WalkStop::Fault,
        TestStop::NoMemory => WalkStop::NoMemory,
    }
}

impl Rings for GivenLists<'_> {
    ghost lists = { λ g. drop g.at g.lists.now };

    ghost paid = { ⊤ };

    ghost ring_by = { λ i. ring_given (is_ring (vword i)) };

    fn ring<S: Space, L: Ledger>(
        &mut self,
        alloc: Global,
        space: &mut S,
        asked: &Asked,
        shape: &ListShape,
        head: u64,
        steps: &mut Steps<L>,
    ) -> Result<Walked, WalkStop> {
        let lists = self.lists;
        if self.at >= lists.len() {
            return Err(ended(alloc, asked, Rule::L1, head, TestStop::Unfit));
        }
        let nodes = lists.get(self.at);
        self.at += 1;
        match test_ring(alloc, space, shape, head, nodes, steps) {
            Ok(()) => copy_of(alloc, nodes),
            Err(halt) => Err(ended(alloc, asked, Rule::L1, head, halt)),
        }
    }
}

impl Chains for GivenLists<'_> {
    ghost free_by = { λ i. free_given (is_free_list i) };

    fn free<S: Space, L: Ledger>(
        &mut self,
        alloc: Global,
        space: &mut S,
        asked: &Asked,
        grid: &Grid,
        first: Scalar,
        steps: &mut Steps<L>,
    ) -> Result<Walked, WalkStop> {
        let lists = self.lists;
        let at = low_word(&first);
        if self.at >= lists.len() {
            return Err(ended(alloc, asked, Rule::U5, at, TestStop::Unfit));
        }
        let objects = lists.get(self.at);
        self.at += 1;
        match test_free_list(alloc, space, grid, first, objects, steps) {
            Ok(()) => copy_of(alloc, objects),
            Err(halt) => Err(ended(alloc, asked, Rule::U5, at, halt)),
        }
    }
}

impl HashChains for GivenLists<'_> {
    ghost lists = { λ g. drop g.at g.lists.now };

    ghost paid = { ⊤ };

    ghost hash_by = { λ i. hash_given (is_hash_chain (vword i)) };

    fn hash_chain<S: Space, L: Ledger>(
        &mut self,
        alloc: Global,
        space: &mut S,
        asked: &Asked,
        shape: &HShape,
        head: u64,
        steps: &mut Steps<L>,
    ) -> Result<Walked, WalkStop> {
        let lists = self.lists;
        if self.at >= lists.len() {
            return Err(ended(alloc, asked, Rule::H1, head, TestStop::Unfit));
        }
        let nodes = lists.get(self.at);
        self.at += 1;
        match test_chain(alloc, space, shape, head, nodes, steps) {
            Ok(()) => copy_of(alloc, nodes),
            Err(halt) => Err(ended(alloc, asked, Rule::H1, head, halt)),
        }
    }
}
