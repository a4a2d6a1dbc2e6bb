// Where the words stand that tell in which area an address lies.
ghost use Rattle.std.specs.Prelude.{◌≡◌, ◌≤◌, codes, length, IfSome};
ghost use Rattle.kc_view.specs.TaskLists.{IsInside};
ghost use Rattle.kc_kinds.specs.Inside.{AreTasksInside};
ghost use Rattle.kc_kinds.specs.Kernels.{address_in, kernel};
ghost use Rattle.kc_kinds.specs.Tasks.{task_row, task_words};
ghost use Rattle.kc_owner.specs.Kernels.{single};
ghost use Rattle.kc_owner.specs.Area.Shapes.{area_shape, array_parts, first_shape, init_stride, layout_parts, module_shape, or_other, parts_apart, processor_shape, stack_bytes, stack_shape};

use crate::{Elements, elements_in, inner_in, list_words, scalar_in, single, struct_named};
use kc_btf::Btf;
use kc_found::ListShape;
use kc_kinds::{Kind, Known, Own, Sort, row_of, shape_of};
use kc_layout::Field;
use kc_view::TaskShape;

/// Where the parts of a module's memory are told.
#[derive(Clone, Copy, Debug, PartialEq, Eq)]
pub struct PartShape {
    /// The field of a module that has the first part's address.
    pub base: Field,
    /// The one that has its size in bytes.
    pub size: Field,
    /// How many parts a module has.
    pub count: u8,
    /// How many bytes later the fields of the next part stand.
    pub stride: u64,
}

/// Where the words of modules stand (`struct module`).
#[derive(Clone, Copy, Debug, PartialEq, Eq)]
pub struct ModuleShape {
    /// The nodes of the ring of modules.
    pub list: ListShape,
    /// The virtual address of that ring's head, `modules`.
    pub head: u64,
    /// The offset of that ring's node from a module's address.
    pub link: u64,
    /// The member `name` of a module.
    pub name: Elements,
    /// Its memory.
    pub parts: PartShape,
}

/// Where the areas of processors are told.
#[derive(Clone, Copy, Debug, PartialEq, Eq)]
pub struct ProcessorShape {
    /// The virtual address of the number of processors, `nr_cpu_ids`.
    pub count: u64,
    /// That of the array of the areas' offsets, `__per_cpu_offset`.
    pub offsets: u64,
    /// The address of `__per_cpu_start`, to which an offset is added.
    pub start: u64,
    /// That of `__per_cpu_end`.
    pub end: u64,
}

/// Where the stacks of tasks are told.
#[derive(Clone, Copy, Debug, PartialEq, Eq)]
pub struct StackShape {
    /// The task list.
    pub tasks: TaskShape,
    /// The virtual address of the task at which it starts, `init_task`.
    pub first: u64,
    /// The member `comm` of a task.
    pub comm: Elements,
    /// The size of a stack in bytes, which is that of the first task's, from `init_stack` on.
    pub bytes: u64,
}

/// Where the words stand that tell in which area an address lies. A kernel may lack what one of these needs.
#[derive(Clone, Copy, Debug, PartialEq, Eq)]
pub struct AreaShape {
    /// Modules.
    pub modules: Option<ModuleShape>,
    /// The areas of processors.
    pub processors: Option<ProcessorShape>,
    /// The stacks of tasks.
    pub stacks: Option<StackShape>,
}

// How many bytes after `core_layout` a module's `init_layout` stands, which is the same struct.
#[tactic(auto, unfolding(crate::specs::Area::Shapes::init_stride))]
fn init_stride(btf: &Btf, layout: Option<u32>, module_id: Option<u32>) -> Option<u64>
    requires { IfSome module_id (λ id. id ≤ length btf.now.records) }
    ensures { result ≡ init_stride btf.now layout module_id }
{
    let core = inner_in(btf, layout, module_id, b"core_layout")?;
    let init = inner_in(btf, layout, module_id, b"init_layout")?;
    Some(init.wrapping_sub(core))
}

// The part that a module keeps, and that of its init function where a kernel's types have one.
fn parts_apart(base: Field, size: Field, stride: Option<u64>) -> PartShape
    ensures { result ≡ parts_apart base size stride }
{
    PartShape {
        base,
        size,
        count: if stride.is_some() { 2 } else { 1 },
        stride: stride.unwrap_or(0),
    }
}

// A module's memory in parts that have a member each.
#[tactic(auto, unfolding(crate::specs::Area::Shapes::layout_parts))]
fn layout_parts(known: &Known<'_>, module_id: Option<u32>) -> Option<PartShape>
    requires { IfSome module_id (λ id. id ≤ length known.now.btf.now.records) }
    ensures { result ≡ layout_parts known.now.btf.now module_id }
{
    let base = scalar_in(known.btf, module_id, b"core_layout.base")?;
    let size = scalar_in(known.btf, module_id, b"core_layout.size")?;
    let layout = struct_named(known, b"module_layout");
    let stride = init_stride(known.btf, layout, module_id);
    Some(parts_apart(base, size, stride))
}

// A module's memory in an array of parts.
#[tactic(auto, unfolding(crate::specs::Area::Shapes::array_parts))]
fn array_parts(btf: &Btf, module_id: Option<u32>) -> Option<PartShape>
    requires { IfSome module_id (λ id. id ≤ length btf.now.records) }
    ensures { result ≡ array_parts btf.now module_id }
{
    let array = elements_in(btf, module_id, b"mem")?;
    let base = scalar_in(btf, module_id, b"mem[0].base")?;
    let size = scalar_in(btf, module_id, b"mem[0].size")?;
    Some(PartShape {
        base,
        size,
        count: array.count,
        stride: array.size,
    })
}

// The memory of modules, as the kernel's types have it.
fn parts_of(known: &Known<'_>, module_id: Option<u32>) -> Option<PartShape>
    requires { IfSome module_id (λ id. id ≤ length known.now.btf.now.records) }
    ensures { result ≡ first_shape (layout_parts known.now.btf.now module_id) (array_parts known.now.btf.now module_id) }
{
    match layout_parts(known, module_id) {
        Some(parts) => Some(parts),
        None => array_parts(known.btf, module_id),
    }
}

// Where the words of modules stand.
#[tactic(auto, unfolding(crate::specs::Area::Shapes::module_shape))]
fn module_shape(known: &Known<'_>) -> Option<ModuleShape>
    ensures { result ≡ module_shape (kernel known.now) }
{
    let list = list_words(known)?;
    let head = single(known, b"modules")?;
    let node = struct_named(known, b"list_head");
    let module_id = struct_named(known, b"module");
    let link = inner_in(known.btf, node, module_id, b"list")?;
    let name = elements_in(known.btf, module_id, b"name")?;
    let parts = parts_of(known, module_id)?;
    Some(ModuleShape {
        list,
        head,
        link,
        name,
        parts,
    })
}

// Where the areas of processors are told.
#[tactic(auto, unfolding(crate::specs::Area::Shapes::processor_shape))]
fn processor_shape(known: &Known<'_>) -> Option<ProcessorShape>
    ensures { result ≡ processor_shape (kernel known.now) }
{
    let count = single(known, b"nr_cpu_ids")?;
    let offsets = single(known, b"__per_cpu_offset")?;
    let start = single(known, b"__per_cpu_start")?;
    let end = single(known, b"__per_cpu_end")?;
    Some(ProcessorShape {
        count,
        offsets,
        start,
        end,
    })
}

// The task list.
fn tasks_in(known: &Known<'_>) -> Option<TaskShape>
    ensures exact { result ≡ task_words known.now.btf.now (task_row known.now.btf.now) }
    ensures there { IfSome result (λ tasks. IsInside tasks known.now.btf.now) }
{
    let own = Own {
        link: 0,
        key: None,
        unique: false,
        cached: false,
    };
    let row = row_of(known, Sort::Tasks, false);
    match shape_of(known, &row, &own, Sort::Tasks) {
        Some(Kind::Tasks(tasks)) => Some(tasks),
        _ => None,
    }
}

// Where the first task's stack ends.
fn stack_end(known: &Known<'_>) -> Option<u64>
    ensures { result ≡ or_other (single (address_in (kernel known.now) (codes "__end_init_task"))) (single (address_in (kernel known.now) (codes "__end_init_stack"))) }
{
    match single(known, b"__end_init_task") {
        Some(end) => Some(end),
        None => single(known, b"__end_init_stack"),
    }
}

// The size of a stack, which is that of the first task's.
#[tactic(auto, unfolding(crate::specs::Area::Shapes::stack_bytes))]
fn stack_bytes(known: &Known<'_>) -> Option<u64>
    ensures { result ≡ stack_bytes (kernel known.now) }
{
    let start = single(known, b"init_stack")?;
    let end = stack_end(known)?;
    if start <= end {
        Some(end - start)
    } else {
        None
    }
}

// Where the stacks of tasks are told.
#[tactic(auto, unfolding(crate::specs::Area::Shapes::stack_shape))]
fn stack_shape(known: &Known<'_>) -> Option<StackShape>
    ensures exact { result ≡ stack_shape (kernel known.now) }
    ensures there { IfSome result (λ shape. IsInside shape.tasks known.now.btf.now) }
{
    let tasks = tasks_in(known)?;
    let first = single(known, b"init_task")?;
    let task = struct_named(known, b"task_struct");
    let comm = elements_in(known.btf, task, b"comm")?;
    let bytes = stack_bytes(known)?;
    Some(StackShape {
        tasks,
        first,
        comm,
        bytes,
    })
}

/// Where a kernel has these words: what tells of modules, of processors or of stacks is `None` where it lacks a type, a field or a
/// symbol of it, or where its map lists such a symbol at two addresses.
pub fn area_shape(known: &Known<'_>) -> AreaShape
    ensures exact { result ≡ area_shape (kernel known.now) }
    ensures there { IfSome result.stacks (λ shape. IsInside shape.tasks known.now.btf.now) }
{
    AreaShape {
        modules: module_shape(known),
        processors: processor_shape(known),
        stacks: stack_shape(known),
    }
}
