// Where the structs have the words that lead to modules and their types.
ghost use Rattle.std.specs.Prelude.{◌≡◌, ok_or};
ghost use Rattle.kc_modules.specs.Parts.{array_parts, back, elements, layout_parts, member, parts_in};
ghost use Rattle.kc_modules.specs.Shapes.{module_fields, needed, typed_shape};

use kc_btf::Btf;
use kc_kallsyms::{ModuleMember, TableFault};
use kc_layout::{array_under, find_type, locate};

/// Where a `struct module` has the address and the sizes of its parts, in bytes from its start.
#[derive(Clone, Copy, Debug, PartialEq, Eq)]
pub struct ModuleParts {
    /// The address of the first part.
    pub base: u64,
    /// Its size.
    pub size: u64,
    /// How many parts there are.
    pub count: u32,
    /// How many bytes after the size of a part that of the next one stands.
    pub stride: u64,
}

/// Where a `struct module` has what is read of it, in bytes from its start.
#[derive(Clone, Copy, Debug, PartialEq, Eq)]
pub struct ModuleFields {
    /// The node of the list of modules.
    pub list: u64,
    /// The name.
    pub name: u64,
    /// The parts.
    pub parts: ModuleParts,
}

/// Where the structs have what leads from a node of the list of modules with types to a name and to types, in bytes from the start of each.
#[derive(Clone, Copy, Debug, PartialEq, Eq)]
pub struct TypedShape {
    /// The node, in `struct btf_module`.
    pub list: u64,
    /// The address of the `struct module`, in `struct btf_module`.
    pub module_at: u64,
    /// The name, in `struct module`.
    pub name: u64,
    /// The address of the `struct btf`, in `struct btf_module`.
    pub btf: u64,
    /// The address of the types, in `struct btf`.
    pub data_at: u64,
    /// Their size, in `struct btf`.
    pub size: u64,
}

// The byte of a member in the struct with a name.
fn member(btf: &Btf, name: &[u8], path: &[u8]) -> Option<u64>
    ensures { result ≡ member btf.now name.now path.now }
{
    match locate(btf, find_type(btf, name)?, path) {
        Ok(place) => Some(place.byte),
        Err(_) => None,
    }
}

// How many elements a member has that is an array, of 64 at most.
fn elements(btf: &Btf, name: &[u8], path: &[u8]) -> Option<u32>
    ensures { result ≡ elements btf.now name.now path.now }
{
    let Ok(place) = locate(btf, find_type(btf, name)?, path) else {
        return None;
    };
    let count = array_under(btf, place.ty)?.nelems;
    if count <= 64 { Some(count) } else { None }
}

// The address so many bytes before one.
pub(crate) fn back(at: u64, count: u64) -> u64
    ensures { result ≡ back at count }
{
    at.wrapping_sub(count)
}

// A part that stays, and one that is gone after init.
#[tactic(auto, unfolding(crate::specs::Parts::layout_parts))]
fn layout_parts(btf: &Btf) -> Option<ModuleParts>
    ensures { result ≡ layout_parts btf.now }
{
    let base = member(btf, b"module", b"core_layout.base")?;
    let size = member(btf, b"module", b"core_layout.size")?;
    let next = member(btf, b"module", b"init_layout.size")?;
    Some(ModuleParts {
        base,
        size,
        count: 2,
        stride: back(next, size),
    })
}

// An array of parts.
#[tactic(auto, unfolding(crate::specs::Parts::array_parts))]
fn array_parts(btf: &Btf) -> Option<ModuleParts>
    ensures { result ≡ array_parts btf.now }
{
    let base = member(btf, b"module", b"mem[0].base")?;
    let size = member(btf, b"module", b"mem[0].size")?;
    let next = member(btf, b"module", b"mem[1].size")?;
    let count = elements(btf, b"module", b"mem")?;
    Some(ModuleParts {
        base,
        size,
        count,
        stride: back(next, size),
    })
}

// Of the two forms the one that the kernel has.
fn parts_in(btf: &Btf) -> Option<ModuleParts>
    ensures { result ≡ parts_in btf.now }
{
    match layout_parts(btf) {
        Some(parts) => Some(parts),
        None => array_parts(btf),
    }
}

// The byte of a member that has to be there.
fn needed(btf: &Btf, key: ModuleMember, name: &[u8], path: &[u8]) -> Result<u64, TableFault>
    ensures { result ≡ needed btf.now key name.now path.now }
{
    member(btf, name, path).ok_or(TableFault::S14(key))
}

/// Where a `struct module` has what is read of it, by the kernel's types.
///
/// # Errors
///
/// S14 with the first member that they lack.
#[tactic(auto, unfolding(crate::specs::Shapes::module_fields))]
pub fn module_fields(btf: &Btf) -> Result<ModuleFields, TableFault>
    ensures { result ≡ module_fields btf.now }
{
    let list = needed(btf, ModuleMember::List, b"module", b"list")?;
    let name = needed(btf, ModuleMember::Name, b"module", b"name")?;
    let parts = parts_in(btf).ok_or(TableFault::S14(ModuleMember::Memory))?;
    Ok(ModuleFields { list, name, parts })
}

/// Where the structs have what leads to a module's types, by the kernel's types.
///
/// # Errors
///
/// S14 with the first member that they lack.
#[tactic(auto, unfolding(crate::specs::Shapes::typed_shape))]
pub fn typed_shape(btf: &Btf) -> Result<TypedShape, TableFault>
    ensures { result ≡ typed_shape btf.now }
{
    let list = needed(btf, ModuleMember::TypedList, b"btf_module", b"list")?;
    let module_at = needed(btf, ModuleMember::Module, b"btf_module", b"module")?;
    let name = needed(btf, ModuleMember::Name, b"module", b"name")?;
    let types = needed(btf, ModuleMember::Types, b"btf_module", b"btf")?;
    let data_at = needed(btf, ModuleMember::Data, b"btf", b"data")?;
    let size = needed(btf, ModuleMember::Size, b"btf", b"data_size")?;
    Ok(TypedShape {
        list,
        module_at,
        name,
        btf: types,
        data_at,
        size,
    })
}
