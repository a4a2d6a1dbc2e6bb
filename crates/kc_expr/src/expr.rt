// A check that was read.
ghost use Rattle.std.specs.Prelude.{◌≡◌, ◌≤◌};
ghost use Rattle.kc_expr.specs.Lists.{texts};
ghost use Rattle.kc_expr.specs.Values.{fields_of, leaves};
ghost use Rattle.kc_expr.specs.Views.{shape};

use crate::tree::Node;

/// A check of an element, as its text was read.
#[derive(Drop)]
pub struct Expr {
    pub(crate) root: Node,
    pub(crate) paths: Vec<Vec<u8>>,
    // The paths are those of the tree, in the order of first appearance.
    ghost listed: { texts paths.items ≡ fields_of (shape root) },
    // A text of 256 bytes has no more numbers and paths.
    ghost small: { leaves (shape root) ≤ 256 },
}
