// The positions of a tree.
ghost use Rattle.std.specs.Prelude.{◌≡◌, ◌<◌, ◌-◌, ◌^◌};
ghost use Rattle.kc_found.specs.RbTrees.{left_spot, right_spot, root_spot};

use crate::rules::is_red;
use kc_found::{RbKey, RbLinks, RbSpot, VWord};

/// The position of the whole tree, by the word of its root.
pub fn root_of(root: VWord) -> RbSpot
    ensures { result ≡ root_spot root }
{
    RbSpot {
        link: root,
        parent: 0,
        red: true,
        low: None,
        high: None,
        black: 0,
    }
}

// The number of black nodes above a node's children.
fn blacks(spot: &RbSpot, links: &RbLinks) -> u64
    requires { spot.now.black < 2 ^ 64 - 1 }
    ensures { result ≡ Rattle.kc_found.specs.RbTrees.blacks spot.now links.now }
{
    if is_red(links.parent.value) {
        spot.black
    } else {
        spot.black + 1
    }
}

// A key as a bound of others.
fn bound_of(key: &Option<RbKey>) -> Option<i128>
    ensures { result ≡ Rattle.kc_found.specs.RbTrees.bound_of key.now }
{
    match key {
        Some(key) => Some(key.number.value),
        None => None,
    }
}

/// The position of a node's left child, by the node's position, words and key.
pub fn left_of(spot: &RbSpot, links: &RbLinks, key: &Option<RbKey>) -> RbSpot
    requires { spot.now.black < 2 ^ 64 - 1 }
    ensures { result ≡ left_spot spot.now links.now key.now }
{
    RbSpot {
        link: links.left,
        parent: spot.link.value,
        red: is_red(links.parent.value),
        low: spot.low,
        high: bound_of(key),
        black: blacks(spot, links),
    }
}

/// The position of a node's right child, by the node's position, words and key.
pub fn right_of(spot: &RbSpot, links: &RbLinks, key: &Option<RbKey>) -> RbSpot
    requires { spot.now.black < 2 ^ 64 - 1 }
    ensures { result ≡ right_spot spot.now links.now key.now }
{
    RbSpot {
        link: links.right,
        parent: spot.link.value,
        red: is_red(links.parent.value),
        low: bound_of(key),
        high: spot.high,
        black: blacks(spot, links),
    }
}
