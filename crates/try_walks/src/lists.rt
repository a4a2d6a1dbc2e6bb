// Rings and hash chains. A case gives the words of one that are changed.
use crate::walk::Walks;
use anyhow::Result;
use kc_cases::{Case, answer_text};
use kc_found::{HShape, ListShape};
use kc_list::{hchain, ring};
use kc_word::Steps;
use std::alloc::Global;
use std::sync::ledger::Ledger;

/// Rings, whose nodes have the words `next` and `prev`.
pub struct Rings;

impl Walks for Rings {
    fn answer<L: Ledger>(
        &self,
        alloc: Global,
        case: &Case<'_>,
        steps: &mut Steps<L>,
    ) -> Result<String> {
        let Case { file, given } = case;
        let head = file.number("head")?;
        let mut space = file.memory(alloc, given, file.section("words")?)?;
        let shape = ListShape { next: 0, prev: 8 };
        let walk = ring(alloc, &mut space, &shape, head, 7, steps);
        Ok(answer_text(alloc, walk, head)?)
    }
}

/// Hash chains, whose nodes have the words `next` and `pprev`.
pub struct HashChains;

impl Walks for HashChains {
    fn answer<L: Ledger>(
        &self,
        alloc: Global,
        case: &Case<'_>,
        steps: &mut Steps<L>,
    ) -> Result<String> {
        let Case { file, given } = case;
        let first = file.number("first")?;
        let mut space = file.memory(alloc, given, file.section("words")?)?;
        let shape = HShape {
            first: 0,
            next: 0,
            pprev: 8,
        };
        let walk = hchain(alloc, &mut space, &shape, first, 7, steps);
        Ok(answer_text(alloc, walk, first)?)
    }
}
