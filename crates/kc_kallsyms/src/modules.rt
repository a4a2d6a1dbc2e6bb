// What leads to modules and their types, by name.
ghost use Rattle.std.specs.Prelude.{◌≡◌};
ghost use Rattle.kc_kallsyms.specs.Modules.{list_key, member_key};

use crate::fault::{ModuleList, ModuleMember};

/// The name of a list's head.
pub fn list_key(list: ModuleList) -> &'static [u8]
    ensures { result.now ≡ list_key list }
{
    match list {
        ModuleList::Loaded => b"modules",
        ModuleList::Typed => b"btf_modules",
    }
}

/// A member, after the name of its struct.
pub fn member_key(member: ModuleMember) -> &'static [u8]
    ensures { result.now ≡ member_key member }
{
    match member {
        ModuleMember::List => b"module.list",
        ModuleMember::Name => b"module.name",
        ModuleMember::Memory => b"module.mem",
        ModuleMember::TypedList => b"btf_module.list",
        ModuleMember::Module => b"btf_module.module",
        ModuleMember::Types => b"btf_module.btf",
        ModuleMember::Data => b"btf.data",
        ModuleMember::Size => b"btf.data_size",
    }
}
