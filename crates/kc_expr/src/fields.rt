// The paths of a check.
ghost use Rattle.std.specs.Prelude.{◌≡◌, ◌<◌, ◌≤◌, [], length, get_or, OnOk};
ghost use Rattle.std.specs.List.{list_any, position_or_len};
ghost use Rattle.std.specs.Str.{bytes_eq};
ghost use Rattle.kc_expr.specs.Lists.{texts};
ghost use Rattle.kc_expr.specs.Values.{fields_from, fields_of, with_field};
ghost use Rattle.kc_expr.specs.Views.{shape};
ghost use Rattle.kc_expr.specs.Exprs.{tree_of};

use crate::expr::Expr;
use crate::tree::Node;
use kc_word::NoMemory;
use std::alloc::Global;

impl Expr {
    /// How many different paths the check has.
    pub fn fields(&self) -> usize
        ensures { result ≡ length (fields_of (tree_of self.now)) }
    {
        self.paths.len()
    }

    /// The path with this number, from 0, in the order of first appearance.
    pub fn field(&self, i: usize) -> &[u8]
        requires { i < length (fields_of (tree_of self.now)) }
        ensures { result.now ≡ get_or (fields_of (tree_of self.now)) i [] }
    {
        &self.paths[i]
    }
}

// Whether a path is listed.
fn is_listed(paths: &[Vec<u8>], path: &[u8]) -> bool
    ensures { result ≡ list_any (λ f. bytes_eq f path.now) (texts paths.now) }
{
    match paths {
        [] => false,
        [first, rest @ ..] => first.as_slice() == path || is_listed(rest, path),
    }
}

// The place of a path, or how many there are where it isn't listed.
pub(crate) fn place_of(paths: &[Vec<u8>], path: &[u8]) -> usize
    ensures place { result ≡ position_or_len (λ f. bytes_eq f path.now) (texts paths.now) }
    ensures within { result ≤ length paths.now }
{
    match paths {
        [] => 0,
        [first, rest @ ..] => {
            if first.as_slice() == path {
                0
            } else {
                place_of(rest, path) + 1
            }
        }
    }
}

// Lists a path that isn't listed yet.
fn add_field(alloc: Global, paths: &mut Vec<Vec<u8>>, path: &[u8]) -> Result<(), NoMemory>
    ensures { OnOk result (texts paths.new.items ≡ with_field (texts paths.old.items) path.now) }
{
    if is_listed(paths, path) {
        return Ok(());
    }
    let mut copy = Vec::new(alloc);
    copy.extend_from_slice(path)?;
    paths.push(copy)?;
    Ok(())
}

// Lists the paths of a tree.
pub(crate) fn list_fields(
    alloc: Global,
    paths: &mut Vec<Vec<u8>>,
    node: &Node,
) -> Result<(), NoMemory>
    ensures { OnOk result (texts paths.new.items ≡ fields_from (texts paths.old.items) (shape node.now)) }
{
    match node {
        Node::Literal(_) => Ok(()),
        Node::Field(path) => add_field(alloc, paths, path),
        Node::Negation(below) => list_fields(alloc, paths, below),
        Node::Group(below) => list_fields(alloc, paths, below),
        Node::Binary(_, left, right) => {
            list_fields(alloc, paths, left)?;
            list_fields(alloc, paths, right)
        }
    }
}
