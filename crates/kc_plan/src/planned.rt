// An audit whose names and paths are looked up.
ghost use Rattle.std.specs.Prelude.{◌≡◌, ◌≤◌, length};
ghost use Rattle.kc_expr.specs.Exprs.{tree_of};
ghost use Rattle.kc_expr.specs.Values.{fields_of};

use kc_expr::Expr;
use kc_found::{Items, Name};
use kc_kinds::Kind;
use kc_layout::{Field, Located};

/// The audits of a plan, in its order.
pub type AuditList = Items<Audit>;

/// The numbers of audits, counted from 0 in the order of the plan.
pub type Numbers = Items<u32>;

/// The checks of an audit's elements, in the order of the plan.
pub type Checks = Items<Check>;

/// The fields of a check.
pub type Fields = Items<Field>;

/// A check of an element, which holds where its value isn't 0.
#[derive(Drop)]
pub struct Check {
    /// The check as its text was read.
    pub expr: Expr,
    /// Where its paths lead from the element: a field for each path, in the order in which they first appear.
    /// At most 8.
    pub fields: Fields,
    pub ghost whole: { length fields ≡ length (fields_of (tree_of expr)) },
    pub ghost few: { length fields ≤ 8 },
}

/// One audit: a structure that is walked, from one place or from each element of another audit.
#[derive(Drop)]
pub struct Audit {
    /// Its name.
    pub name: Name,
    /// Its kind, with the places of the words that it reads.
    pub kind: Kind,
    /// Where it begins.
    pub start: Start,
    /// The number of its elements' type.
    pub element: Option<u32>,
    /// The byte of the node in an element.
    pub link: u64,
    /// The checks of each of its elements, in this order: at most 32.
    pub checks: Checks,
    /// The audits that are made at each of its elements, after its checks and in this order.
    pub each: Numbers,
    pub ghost few: { length checks ≤ 32 },
}

/// Where an audit begins.
#[derive(Clone, Copy)]
pub enum Start {
    /// At a path from a type that lies at a symbol.
    Root {
        /// The symbol's address at run time.
        symbol: u64,
        /// The number of the type that lies there.
        ty: u32,
        /// The head, from there.
        to: Located,
    },
    /// At a path from each element of the audit that names this one.
    From {
        /// The head, from the element.
        to: Located,
        /// Whether a null pointer on the way is passed over.
        optional: bool,
    },
}
