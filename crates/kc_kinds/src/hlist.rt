// Where the words of hash chains stand.
ghost use Rattle.std.specs.Prelude.{◌≡◌, ◌≤◌, length, IfSome};
ghost use Rattle.kc_kinds.specs.Hlist.{hlist_words};

use crate::members::word_in;
use kc_btf::Btf;
use kc_found::HShape;

// The words of a hash chain.
#[tactic(auto, unfolding(crate::specs::Hlist::hlist_words))]
pub(crate) fn hlist_words(btf: &Btf, head: Option<u32>, node: Option<u32>) -> Option<HShape>
    requires head { IfSome head (λ id. id ≤ length btf.now.records) }
    requires node { IfSome node (λ id. id ≤ length btf.now.records) }
    ensures { result ≡ hlist_words btf.now head node }
{
    let first = word_in(btf, head, b"first")?;
    let next = word_in(btf, node, b"next")?;
    let pprev = word_in(btf, node, b"pprev")?;
    Some(HShape { first, next, pprev })
}
