// Whether what the walk took for an element leads back to where it came from.
ghost use Rattle.std.specs.Prelude.{◌≡◌};
ghost use Rattle.kc_element.specs.Confirmed.{has_links, is_confirmed, leads_back};

use kc_kinds::Kind;
use kc_memory::Rule;

/// Whether the element that a rule is about leads back to where the walk came from, by the rules that were looked at before. Where it doesn't,
/// the pointer that led there may be the wrong word.
pub fn leads_back(rule: Rule) -> bool
    ensures { result ≡ leads_back rule }
{
    !matches!(
        rule,
        Rule::L1
            | Rule::H1
            | Rule::R1
            | Rule::X1
            | Rule::X2
            | Rule::X3
            | Rule::X4
            | Rule::U4
            | Rule::G1
    )
}

// Whether the elements of an audit have links.
fn has_links(kind: &Kind) -> bool
    ensures { result ≡ has_links kind.now }
{
    !matches!(kind, Kind::Xarray(_))
}

/// The same of a violation of an audit of a kind: the elements of an xarray have no link to it.
pub fn is_confirmed(kind: &Kind, rule: Rule) -> bool
    ensures { result ≡ is_confirmed kind.now rule }
{
    match rule {
        Rule::C => has_links(kind),
        _ => leads_back(rule),
    }
}
