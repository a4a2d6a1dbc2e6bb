// Words that a walk reads and takes.
ghost use Rattle.std.specs.Prelude.{◌≡◌, ℕ, ◌+◌, ◌*◌, ◌^◌, ◌<◌, ◌≤◌, ◌∷◌, ◌++◌, [], length, None, Ok, IfOk, IfSome};
ghost use Rattle.kc_memory.specs.Space.{AnswersAs};
ghost use Rattle.kc_memory.specs.Stays.{CountsFaults, SpaceStays};
ghost use Rattle.kc_memory.specs.Translation.{vword};
ghost use Rattle.kc_found.specs.Nodes.{both, one_taken, two_taken};
ghost use Rattle.kc_found.specs.Walks.{CountsWalkFaults, IsNamed, TakesAs};

use crate::pass::Pass;
use kc_found::{Claims, Space, Stop, VWord, WalkStop, stopped, take_word};
use kc_word::Steps;
use std::sync::ledger::Ledger;

// Two words, the first one first.
fn read_both<S: Space, L: Ledger>(
    space: &mut S,
    first: u64,
    second: u64,
    steps: &mut Steps<L>,
) -> Result<(VWord, VWord), Stop>
    ensures words { AnswersAs (λ image. both (vword image) first second) (S.image space.old) result }
    ensures steps { steps.new ≤ steps.old + 2 * S.most space.old }

    ensures stays { SpaceStays S.image S.files S.through S.most space.old space.new }
    ensures cause { CountsFaults result (S.faults space.old) (S.faults space.new) }
{
    let a = space.word(first, steps)?;
    let b = space.word(second, steps)?;
    Ok((a, b))
}

// Reads and takes a word, to which `led` leads.
pub(crate) fn enter_word<S: Space, Shape, L: Ledger>(
    pass: &Pass<Shape>,
    space: &mut S,
    claims: &mut Claims,
    va: u64,
    led: Option<VWord>,
    steps: &mut Steps<L>,
) -> Result<VWord, WalkStop>
    ensures word { IfOk result (λ w. IfSome (S.image space.old) (λ image. vword image va ≡ Ok w)) }
    ensures site { TakesAs (λ i. one_taken pass.now.asked led (vword i va)) claims.old claims.new (S.image space.old) result }
    ensures named { IsNamed result pass.now.asked.audit pass.now.asked.start }
    ensures steps { steps.new ≤ steps.old + S.most space.old }

    ensures stays { SpaceStays S.image S.files S.through S.most space.old space.new }
    ensures cause { CountsWalkFaults result (S.faults space.old) (S.faults space.new) }
{
    let word = match space.word(va, steps) {
        Ok(word) => word,
        Err(stop) => return Err(stopped(pass.alloc, &pass.asked, stop, led)),
    };
    take_word(pass.alloc, claims, &pass.asked, &word)?;
    Ok(word)
}

// Reads and takes two words, to which `led` leads.
pub(crate) fn enter_both<S: Space, Shape, L: Ledger>(
    pass: &Pass<Shape>,
    space: &mut S,
    claims: &mut Claims,
    first: u64,
    second: u64,
    led: Option<VWord>,
    steps: &mut Steps<L>,
) -> Result<(VWord, VWord), WalkStop>
    ensures words { IfOk result (λ p. IfSome (S.image space.old) (λ image. both (vword image) first second ≡ Ok p)) }
    ensures site { TakesAs (λ i. two_taken pass.now.asked led (both (vword i) first second)) claims.old claims.new (S.image space.old) result }
    ensures named { IsNamed result pass.now.asked.audit pass.now.asked.start }
    ensures steps { steps.new ≤ steps.old + 2 * S.most space.old }

    ensures stays { SpaceStays S.image S.files S.through S.most space.old space.new }
    ensures cause { CountsWalkFaults result (S.faults space.old) (S.faults space.new) }
{
    let words = match read_both(space, first, second, steps) {
        Ok(words) => words,
        Err(stop) => return Err(stopped(pass.alloc, &pass.asked, stop, led)),
    };
    take_word(pass.alloc, claims, &pass.asked, &words.0)?;
    take_word(pass.alloc, claims, &pass.asked, &words.1)?;
    Ok(words)
}

// Whether a list pointer is one that the kernel leaves in a node that it took out.
pub(crate) fn is_poison(value: u64) -> bool
    ensures { result ≡ Rattle.kc_found.specs.Nodes.is_poison value }
{
    value == 0xdead_0000_0000_0100 || value == 0xdead_0000_0000_0122
}
