// Plain data of a dump.

/// A physical address, in bytes.
#[derive(Clone, Copy, Debug, PartialEq, Eq)]
pub struct Pa(pub u64);

/// A PT_LOAD program header (gABI, "Program Header"): the bytes of the file from `offset` on are the
/// physical memory from `paddr` on.
#[derive(Clone, Copy, Debug, PartialEq, Eq)]
pub struct Segment {
    /// The physical address of the first byte, `p_paddr`.
    pub paddr: u64,
    /// How many bytes stand in the file, `p_filesz`.
    pub filesz: u64,
    /// How many bytes the memory has, `p_memsz`.
    pub memsz: u64,
    /// The file offset of the first byte, `p_offset`.
    pub offset: u64,
}

/// How virtual addresses are translated (Intel SDM volume 3A, chapter "Paging").
#[derive(Clone, Copy, Debug, PartialEq, Eq)]
pub struct PageCfg {
    /// The physical address of the top table, in bytes.
    pub table: u64,
    /// Five levels of tables, and else four.
    pub five: bool,
    /// The bits that memory encryption sets in an entry; they are no part of its address.
    pub sme: u64,
}

/// How the memory that a segment has and the file leaves out, from `filesz` up to `memsz` bytes, is read.
#[derive(Clone, Copy, Debug, PartialEq, Eq)]
pub enum Tail {
    /// It is absent.
    Absent,
    /// It is zero.
    Zero,
}
