// How a search ends at a ring that is broken.
ghost use Rattle.std.specs.Prelude.{◌≡◌};
ghost use Rattle.kc_which.specs.Ends.{asked_of, is_same, broken_node, told};

use kc_found::{Asked, Found, ListShape, Rule, WalkStop};

// The audit that a violation names.
pub(crate) fn asked_of(found: &Found) -> Asked
    ensures { result ≡ asked_of found.now }
{
    Asked {
        audit: found.audit,
        start: found.start,
    }
}

// Whether two violations are of one rule, and about one address.
fn is_same(found: &Found, other: &Found) -> bool
    ensures { result ≡ is_same found.now other.now }
{
    other.rule == found.rule && other.at == found.at
}

// The ring, where the walk of it stopped by the violation that is looked for.
pub(crate) fn told<R: Copy>(found: &Found, ring: R, stop: WalkStop) -> Result<Option<R>, WalkStop>
    ensures { result ≡ told found.now ring stop }
{
    match stop {
        WalkStop::Broken(broken) if is_same(found, &broken) => Ok(Some(ring)),
        stop => Err(stop),
    }
}

// The node of a ring whose pointer breaks a rule.
pub(crate) fn broken_node(list: ListShape, rule: Rule, at: u64) -> Option<u64>
    ensures { result ≡ broken_node list rule at }
{
    match rule {
        Rule::L1 => Some(at.wrapping_sub(list.prev)),
        Rule::K | Rule::N => Some(at.wrapping_sub(list.next)),
        _ => None,
    }
}
