// A plan and its audits as they are written, in words of the plan's document.
ghost use Rattle.std.specs.Prelude.{◌≤◌, length, IsTrue};
ghost use Rattle.kc_plan.specs.Kept.{is_version};

use kc_kinds::Sort;
use kc_word::Tail;

// Where an audit begins.
#[derive(Clone, Copy)]
pub(crate) struct StartWords<'t> {
    pub root: Option<&'t str>,
    pub root_type: Option<&'t str>,
    pub root_path: Option<&'t str>,
    pub from: Option<&'t str>,
    pub optional: bool,
}

// How the elements of a tree are ordered, and whether its root keeps the first.
#[derive(Clone, Copy)]
pub(crate) struct TreeWords<'t> {
    pub key: Option<&'t str>,
    pub unique: bool,
    pub cached: bool,
}

// What an audit walks, and what is asked of each of its elements.
#[derive(Drop)]
pub(crate) struct PartWords<'t> {
    pub element: Option<&'t str>,
    pub link: Option<&'t str>,
    pub tree: TreeWords<'t>,
    pub checks: Vec<&'t str>,
    pub each: Vec<&'t str>,
    ghost few: { length checks.items ≤ 32 },
}

// An audit.
#[derive(Drop)]
pub(crate) struct AuditWords<'t> {
    pub name: &'t str,
    pub sort: Sort,
    pub start: StartWords<'t>,
    pub parts: PartWords<'t>,
}

// A plan.
#[derive(Drop)]
pub(crate) struct PlanWords<'t> {
    pub version: u8,
    pub tail: Tail,
    pub audits: Vec<AuditWords<'t>>,
    ghost known: { IsTrue (is_version version) },
    ghost few: { length audits.items ≤ 256 },
}

// An audit that names another in `each`, both by their numbers in the plan.
#[derive(Clone, Copy)]
pub(crate) struct Link {
    pub above: u32,
    pub below: u32,
}
