// Walks as subjects of cases.
ghost use Rattle.std.specs.Prelude.{◌≡◌, ◌<◌};

use anyhow::Result;
use kc_cases::{Case, Subject};
use kc_word::Steps;
use std::alloc::Global;
use std::marker::Brand;
use std::sync::ledger::{Blank, Ledger};

/// What the cases of a file are about, where it counts steps.
pub trait Walks {
    /// What comes of what a case gives, as a text.
    ///
    /// # Errors
    ///
    /// The case doesn't make sense; out of memory.
    fn answer<L: Ledger>(
        &self,
        alloc: Global,
        case: &Case<'_>,
        steps: &mut Steps<L>,
    ) -> Result<String>;
}

/// Walks with a counter of steps of their own for each case.
pub struct Walk<W>(pub W);

impl<W: Walks> Subject for Walk<W> {
    fn answer(&self, alloc: Global, case: &Case<'_>) -> Result<String> {
        begin::<Brand, W>(&self.0, alloc, case, Blank::new(1))
    }
}

fn begin<L: Ledger, W: Walks>(
    walks: &W,
    alloc: Global,
    case: &Case<'_>,
    blank: Blank,
) -> Result<String>
    requires name { blank.name ≡ L.name }
    requires parts { blank.parts ≡ L.parts }
    requires some { 0 < L.parts }
{
    let mut steps = Steps::<L>::new(blank);
    walks.answer(alloc, case, &mut steps)
}
