// Where the words of red-black trees stand.
ghost use Rattle.std.specs.Prelude.{◌≡◌, ◌≤◌, length, IfSome};
ghost use Rattle.kc_kinds.specs.Members.{own_seen};
ghost use Rattle.kc_kinds.specs.Rbtree.{root_words, tree_words};

use crate::known::Known;
use crate::members::{byte_in, struct_named, word_in};
use crate::row::Own;
use kc_found::RbShape;

// The offsets of the word of a root that has its top node, and of the one that has its first.
#[derive(Clone, Copy)]
pub(crate) struct RootWords {
    pub root: u64,
    pub leftmost: Option<u64>,
}

// The words of a root, which may keep the first node.
#[tactic(auto, unfolding(crate::specs::Rbtree::root_words))]
fn root_words(known: &Known<'_>, head: Option<u32>, cached: bool) -> Option<RootWords>
    requires { IfSome head (λ id. id ≤ length known.now.btf.now.records) }
    ensures { result ≡ root_words known.now.btf.now head cached }
{
    if !cached {
        let root = word_in(known.btf, head, b"rb_node")?;
        return Some(RootWords {
            root,
            leftmost: None,
        });
    }
    let inner = byte_in(known.btf, head, b"rb_root")?;
    let root = word_in(known.btf, struct_named(known, b"rb_root"), b"rb_node")?;
    let leftmost = word_in(known.btf, head, b"rb_leftmost")?;
    Some(RootWords {
        root: inner.wrapping_add(root),
        leftmost: Some(leftmost),
    })
}

// The words of a red-black tree.
#[tactic(auto, using(crate::proofs::BitsLemmas::key_kept), unfolding(crate::specs::Rbtree::tree_words))]
pub(crate) fn tree_words(
    known: &Known<'_>,
    head: Option<u32>,
    node: Option<u32>,
    own: &Own,
) -> Option<RbShape>
    requires head { IfSome head (λ id. id ≤ length known.now.btf.now.records) }
    requires node { IfSome node (λ id. id ≤ length known.now.btf.now.records) }
    ensures { result ≡ tree_words known.now.btf.now head node (own_seen own.now) }
{
    let parent_color = word_in(known.btf, node, b"__rb_parent_color")?;
    let right = word_in(known.btf, node, b"rb_right")?;
    let left = word_in(known.btf, node, b"rb_left")?;
    let words = root_words(known, head, own.cached)?;
    Some(RbShape {
        parent_color,
        right,
        left,
        root: words.root,
        leftmost: words.leftmost,
        link: own.link,
        key: own.key,
        unique: own.unique,
    })
}
