// What each rule says.
ghost use Rattle.std.specs.Prelude.{◌≡◌};
ghost use Rattle.kc_cause.specs.Sentences.{sentence};

use kc_memory::Rule;
use kc_rules::row_of;

/// What is wrong where a rule is broken, in a sentence.
pub fn sentence(rule: Rule) -> &'static [u8]
    ensures { result.now ≡ sentence rule }
{
    row_of(rule).says
}
