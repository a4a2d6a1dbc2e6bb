// The types of a kernel and of a module of it as one.
ghost use Rattle.std.specs.Prelude.{◌≡◌};
ghost use Rattle.kc_word.specs.Answers.{GivesTold};
ghost use Rattle.kc_split.specs.Join.{join, told};

use crate::file::joined_file;
use crate::module::read_module;
use crate::stop::SplitStop;
use kc_btf::{Btf, BtfStop};
use std::alloc::Global;

/// Joins a module's types to those of its kernel: the kernel's records and then the module's, which the
/// section `.BTF` of the module has, and so the strings. What comes is read as any kernel's types. The kernel's
/// types stay as they are.
///
/// # Errors
///
/// `Fault` with the first rule that the module's file breaks, and where in that file; `TooLong` where it breaks
/// none, and the two sections of types or the two of strings have more than 2^32 - 1 bytes together;
/// `NoMemory` where there is none for the bytes of both and a table of 4 bytes for each record.
pub fn join(alloc: Global, base: &Btf, module: &[u8]) -> Result<Btf, SplitStop>
    ensures exact { GivesTold told (λ types. types) result (join base.now «module».now) }
{
    let header = read_module(alloc, base, module)?;
    let file = joined_file(
        alloc,
        base.types(),
        &module[header.types..header.types_end],
        base.strings(),
        &module[header.strings..header.strings_end],
    )?;
    base.know_types();
    match Btf::read(alloc, file) {
        Ok(types) => Ok(types),
        Err(BtfStop::NoMemory) => Err(SplitStop::NoMemory),
        Err(BtfStop::Fault(_)) => unreachable!(),
    }
}
