// The element that a violation is about.
ghost use Rattle.std.specs.Prelude.{◌≡◌, ◌≤◌, length, IfSome};
ghost use Rattle.kc_plan.specs.Inside.{IsInside};
ghost use Rattle.kc_plan.specs.Planned.{audit_seen};
ghost use Rattle.kc_element.specs.Elements.{element_of};

use crate::kinds::{kind_element, typed_at};
use kc_btf::Btf;
use kc_found::Found;
use kc_memory::Rule;
use kc_plan::Audit;

/// A struct or union at an address.
#[derive(Clone, Copy, Debug, PartialEq, Eq)]
pub struct Element {
    /// The number of its type.
    pub ty: u32,
    /// The virtual address of its first byte.
    pub at: u64,
}

/// The element whose word breaks a rule, by the rule, the kind of its audit and the address: the plan's element, or where the rule is
/// about another struct of the kind, that one. `None` where these don't tell it.
pub fn element_of(btf: &Btf, audit: &Audit, found: &Found) -> Option<Element>
    requires { IsInside (length btf.now.records) audit.now }
    ensures exact { result ≡ element_of btf.now (audit_seen audit.now) found.now }
    ensures inside { IfSome result (λ e. e.ty ≤ length btf.now.records) }
{
    match found.rule {
        Rule::C => typed_at(audit.element, 0, found.at),
        _ => kind_element(btf, audit, found),
    }
}
