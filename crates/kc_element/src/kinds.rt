// What the rules of each kind are about: the element, and where the number stands.
ghost use Rattle.std.specs.Prelude.{◌≡◌, ◌≤◌, Some, length, max, option_map, IfSome};
ghost use Rattle.kc_plan.specs.Inside.{IsInside};
ghost use Rattle.kc_plan.specs.Planned.{audit_seen};
ghost use Rattle.kc_element.specs.Kinds.{at_field, field_spot, hash_element, hash_node, kind_element, node_element, number_spot, pid_element, pid_spot, ring_element, ring_node, slab_element, slab_spot, task_element, task_field, task_spot, tree_element, tree_spot, typed_at, xa_element, xa_offset, xa_spot};

use crate::element::Element;
use crate::number::Spot;
use kc_btf::Btf;
use kc_found::{Found, HShape, ListShape, RbShape, XaShape};
use kc_kinds::Kind;
use kc_layout::{Field, find_type};
use kc_memory::Rule;
use kc_plan::Audit;
use kc_run::container_of;
use kc_view::{PidShape, SlubShape, TaskShape};

// Something of a type that may be known, so many bytes before an address.
pub(crate) fn typed_at(ty: Option<u32>, byte: u64, at: u64) -> Option<Element>
    ensures value { result ≡ typed_at ty byte at }
    ensures ty { IfSome result (λ e. ty ≡ Some e.ty) }
{
    Some(Element {
        ty: ty?,
        at: container_of(byte, at),
    })
}

// What has a field, whose first byte stands at an address.
fn at_field(ty: Option<u32>, field: &Field, at: u64) -> Option<Element>
    ensures value { result ≡ at_field ty field.now at }
    ensures ty { IfSome result (λ e. ty ≡ Some e.ty) }
{
    typed_at(ty, field.bits.bit / 8, at)
}

// The element of an audit that has a node.
fn node_element(audit: &Audit, node: u64) -> Option<Element>
    ensures value { result ≡ node_element (audit_seen audit.now) node }
    ensures ty { IfSome result (λ e. audit.now.element ≡ Some e.ty) }
{
    typed_at(audit.element, audit.link, node)
}

// The node of a ring whose pointer breaks a rule.
fn ring_node(shape: ListShape, rule: Rule, at: u64) -> Option<u64>
    ensures { result ≡ ring_node shape rule at }
{
    match rule {
        Rule::L1 => Some(container_of(shape.prev, at)),
        Rule::K => Some(container_of(shape.next, at)),
        _ => None,
    }
}

// The element that has it, unless the node is the head.
fn ring_element(audit: &Audit, shape: ListShape, found: &Found) -> Option<Element>
    ensures value { result ≡ ring_element (audit_seen audit.now) shape found.now }
    ensures ty { IfSome result (λ e. audit.now.element ≡ Some e.ty) }
{
    let node = ring_node(shape, found.rule, found.at)?;
    if node == found.start {
        None
    } else {
        node_element(audit, node)
    }
}

// The node of a hash chain whose pointer breaks a rule; the head's pointer is none of a node.
fn hash_node(shape: HShape, found: &Found) -> Option<u64>
    ensures { result ≡ hash_node shape found.now }
{
    match found.rule {
        Rule::H1 => Some(container_of(shape.pprev, found.at)),
        Rule::K if found.at == found.start.wrapping_add(shape.first) => None,
        Rule::K => Some(container_of(shape.next, found.at)),
        _ => None,
    }
}

fn hash_element(audit: &Audit, shape: HShape, found: &Found) -> Option<Element>
    ensures value { result ≡ hash_element (audit_seen audit.now) shape found.now }
    ensures ty { IfSome result (λ e. audit.now.element ≡ Some e.ty) }
{
    node_element(audit, hash_node(shape, found)?)
}

// The element of a tree whose colour, parent or key breaks a rule.
fn tree_element(audit: &Audit, shape: RbShape, found: &Found) -> Option<Element>
    ensures value { result ≡ tree_element (audit_seen audit.now) shape found.now }
    ensures ty { IfSome result (λ e. audit.now.element ≡ Some e.ty) }
{
    match found.rule {
        Rule::R1 | Rule::R2 | Rule::R3 => {
            node_element(audit, container_of(shape.parent_color, found.at))
        }
        Rule::R4 => typed_at(audit.element, shape.key?.bit / 8, found.at),
        _ => None,
    }
}

// The offset in a node of an xarray of what a rule is about.
fn xa_offset(shape: &XaShape, rule: Rule) -> Option<u64>
    ensures { result ≡ xa_offset shape.now rule }
{
    match rule {
        Rule::X1 => Some(shape.shift),
        Rule::X2 => Some(shape.offset),
        Rule::X3 => Some(shape.parent),
        Rule::X4 => Some(shape.array),
        Rule::X5 => Some(shape.count),
        Rule::X6 => Some(shape.nr_values),
        _ => None,
    }
}

// The node of an xarray of which that is.
fn xa_element(btf: &Btf, shape: &XaShape, rule: Rule, at: u64) -> Option<Element>
    ensures value { result ≡ xa_element btf.now shape.now rule at }
    ensures inside { IfSome result (λ e. e.ty ≤ length btf.now.records) }
{
    typed_at(find_type(btf, b"xa_node"), xa_offset(shape, rule)?, at)
}

// The slab, or the node of a cache, of which a rule is.
fn slab_element(shape: &SlubShape, rule: Rule, at: u64) -> Option<Element>
    ensures value { result ≡ slab_element shape.now rule at }
    ensures ty { IfSome result (λ e. e.ty ≤ max shape.now.slab shape.now.knode) }
{
    match rule {
        Rule::U1 => at_field(Some(shape.slab), &shape.slab_cache, at),
        Rule::U2 => at_field(Some(shape.slab), &shape.frozen, at),
        Rule::U4 => typed_at(Some(shape.slab), 0, at),
        Rule::U6 => at_field(Some(shape.slab), &shape.inuse, at),
        Rule::U7 => at_field(Some(shape.knode), &shape.nr_partial, at),
        _ => None,
    }
}

// The field of a task that a rule is about.
fn task_field(shape: &TaskShape, rule: Rule) -> Option<&Field>
    ensures { option_map (λ f. f.now) result ≡ task_field shape.now rule }
{
    match rule {
        Rule::T1 => Some(&shape.group_leader),
        Rule::T2 => Some(&shape.pid),
        Rule::T3 => Some(&shape.signal),
        Rule::T4 => Some(&shape.tgid),
        Rule::T5 => Some(&shape.real_parent),
        _ => None,
    }
}

fn task_element(shape: &TaskShape, rule: Rule, at: u64) -> Option<Element>
    ensures value { result ≡ task_element shape.now rule at }
    ensures ty { IfSome result (λ e. e.ty ≡ shape.now.task) }
{
    at_field(Some(shape.task), task_field(shape, rule)?, at)
}

// The node of the table, the process id or the task of which a rule is.
fn pid_element(btf: &Btf, shape: &PidShape, rule: Rule, at: u64) -> Option<Element>
    ensures value { result ≡ pid_element btf.now shape.now rule at }
    ensures inside { IfSome result (λ e. e.ty ≤ length btf.now.records) }
{
    match rule {
        Rule::G1 => at_field(find_type(btf, b"pid"), &shape.nr, at),
        Rule::G2 => at_field(find_type(btf, b"task_struct"), &shape.thread_pid, at),
        Rule::H1 => typed_at(
            find_type(btf, b"task_struct"),
            shape.links,
            container_of(shape.chain.pprev, at),
        ),
        _ => xa_element(btf, &shape.xa, rule, at),
    }
}

// What a rule of the kind of an audit is about.
pub(crate) fn kind_element(btf: &Btf, audit: &Audit, found: &Found) -> Option<Element>
    requires { IsInside (length btf.now.records) audit.now }
    ensures exact { result ≡ kind_element btf.now (audit_seen audit.now) found.now }
    ensures inside { IfSome result (λ e. e.ty ≤ length btf.now.records) }
{
    match &audit.kind {
        Kind::Ring(shape) => ring_element(audit, *shape, found),
        Kind::Hlist(shape) => hash_element(audit, *shape, found),
        Kind::Rbtree(shape) => tree_element(audit, *shape, found),
        Kind::Xarray(shape) => xa_element(btf, shape, found.rule, found.at),
        Kind::Slub(shape) => slab_element(shape, found.rule, found.at),
        Kind::Tasks(shape) => task_element(shape, found.rule, found.at),
        Kind::Pids(shape) => pid_element(btf, shape, found.rule, found.at),
    }
}

// Where the number of a field stands.
fn field_spot(field: &Field) -> Spot
    ensures { result ≡ field_spot field.now }
{
    Spot::Bits {
        bit: (field.bits.bit % 8) as u8,
        width: field.bits.width,
    }
}

// What a rule of a red-black tree is about.
fn tree_spot(rule: Rule) -> Option<Spot>
    ensures { result ≡ tree_spot rule }
{
    match rule {
        Rule::R1 => Some(Spot::Parent),
        Rule::R2 | Rule::R3 | Rule::R6 => Some(Spot::Word),
        _ => None,
    }
}

// What a rule of an xarray is about.
fn xa_spot(rule: Rule) -> Option<Spot>
    ensures { result ≡ xa_spot rule }
{
    match rule {
        Rule::X1 | Rule::X2 | Rule::X5 | Rule::X6 => Some(Spot::Bits { bit: 0, width: 8 }),
        Rule::X3 | Rule::X4 => Some(Spot::Word),
        _ => None,
    }
}

// What a rule of a slab cache is about.
fn slab_spot(shape: &SlubShape, rule: Rule) -> Option<Spot>
    ensures { result ≡ slab_spot shape.now rule }
{
    match rule {
        Rule::L1 => Some(Spot::Word),
        Rule::U1 => Some(field_spot(&shape.slab_cache)),
        Rule::U2 => Some(field_spot(&shape.frozen)),
        Rule::U7 => Some(field_spot(&shape.nr_partial)),
        _ => None,
    }
}

// What a rule of tasks is about.
fn task_spot(shape: &TaskShape, rule: Rule) -> Option<Spot>
    ensures { result ≡ task_spot shape.now rule }
{
    match rule {
        Rule::L1 | Rule::T6 => Some(Spot::Word),
        Rule::T1 => Some(field_spot(&shape.group_leader)),
        Rule::T2 => Some(field_spot(&shape.pid)),
        Rule::T3 => Some(field_spot(&shape.signal)),
        Rule::T4 => Some(field_spot(&shape.tgid)),
        Rule::T5 => Some(field_spot(&shape.real_parent)),
        _ => None,
    }
}

// What a rule of process ids is about.
fn pid_spot(shape: &PidShape, rule: Rule) -> Option<Spot>
    ensures { result ≡ pid_spot shape.now rule }
{
    match rule {
        Rule::H1 => Some(Spot::Word),
        Rule::G1 => Some(field_spot(&shape.nr)),
        Rule::G2 => Some(field_spot(&shape.thread_pid)),
        _ => xa_spot(rule),
    }
}

// What a rule is about that asks for a number, by the kind of the audit.
pub(crate) fn number_spot(kind: &Kind, rule: Rule) -> Option<Spot>
    ensures { result ≡ number_spot kind.now rule }
{
    match kind {
        Kind::Ring(_) if rule == Rule::L1 => Some(Spot::Word),
        Kind::Hlist(_) if rule == Rule::H1 => Some(Spot::Word),
        Kind::Ring(_) | Kind::Hlist(_) => None,
        Kind::Rbtree(_) => tree_spot(rule),
        Kind::Xarray(_) => xa_spot(rule),
        Kind::Slub(shape) => slab_spot(shape, rule),
        Kind::Tasks(shape) => task_spot(shape, rule),
        Kind::Pids(shape) => pid_spot(shape, rule),
    }
}
