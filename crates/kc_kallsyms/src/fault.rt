// Why a dump's symbol table isn't read.
use thiserror::Error;

/// A line of VMCOREINFO that tells where a table lies.
#[derive(Clone, Copy, Debug, PartialEq, Eq)]
pub enum TableLine {
    /// `SYMBOL(kallsyms_num_syms)`.
    Count,
    /// `SYMBOL(kallsyms_relative_base)`.
    Base,
    /// `SYMBOL(kallsyms_offsets)`.
    Offsets,
    /// `SYMBOL(kallsyms_token_index)`.
    Index,
    /// `SYMBOL(kallsyms_token_table)`.
    Tokens,
    /// `SYMBOL(kallsyms_names)`.
    Names,
    /// `SYMBOL(_stext)`.
    Text,
}

/// A list of modules that a kernel keeps.
#[derive(Clone, Copy, Debug, PartialEq, Eq)]
pub enum ModuleList {
    /// All modules: `modules` of kernel/module/main.c.
    Loaded,
    /// Those that have types: `btf_modules` of kernel/bpf/btf.c.
    Typed,
}

/// A member that leads from a list to a module, or to its types.
#[derive(Clone, Copy, Debug, PartialEq, Eq)]
pub enum ModuleMember {
    /// `list` of `struct module`.
    List,
    /// `name` of `struct module`.
    Name,
    /// `core_layout` of `struct module`, or `mem` in its place.
    Memory,
    /// `list` of `struct btf_module`.
    TypedList,
    /// `module` of `struct btf_module`.
    Module,
    /// `btf` of `struct btf_module`.
    Types,
    /// `data` of `struct btf`.
    Data,
    /// `data_size` of `struct btf`.
    Size,
}

/// The first fault of the kernel's symbol table in a dump, or of what is looked up by it.
#[derive(Clone, Copy, Debug, PartialEq, Eq, Error)]
pub enum TableFault {
    /// This line of VMCOREINFO is missing or has no hex number.
    #[error("S4: a line is missing: {0:?}")]
    S4(TableLine),
    /// There are so many symbols: none, or more than 4,194,304.
    #[error("S5: {0} symbols")]
    S5(u32),
    /// The token with this number has no NUL among its first 512 bytes.
    #[error("S6: token {0} has no end")]
    S6(u16),
    /// The symbol with this number, from 0, has no name of 1 to 511 visible bytes.
    #[error("S7: symbol {0} has no name")]
    S7(u32),
    /// The letter of the symbol with this number, from 0, is none of a kind.
    #[error("S8: symbol {0} has no kind")]
    S8(u32),
    /// There is no symbol `_stext`; or neither reading of offsets gives it the address that the note has, or both do.
    #[error("S9: no reading of offsets fits _stext")]
    S9,
    /// There is no symbol `__start_BTF` or `__stop_BTF`.
    #[error("S10: no symbols of the types")]
    S10,
    /// The types end before they begin, or have more than 64 MiB.
    #[error("S11: the types have no size that can be")]
    S11,
    /// The types break a rule of the format BTF.
    #[error("S12: the types are no types")]
    S12,
    /// There is no symbol with the name of this list.
    #[error("S13: no symbol of the list: {0:?}")]
    S13(ModuleList),
    /// The types lack this member.
    #[error("S14: the types lack a member: {0:?}")]
    S14(ModuleMember),
    /// A list of modules has 65,536 nodes or more: it runs into itself.
    #[error("S15: the list of modules has no end")]
    S15,
    /// No module that has types has the name.
    #[error("S16: no types of such a module")]
    S16,
    /// The module's types have more than 64 MiB.
    #[error("S17: the module's types are too long")]
    S17,
}
