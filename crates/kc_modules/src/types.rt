// The kernel's own types.
ghost use Rattle.std.specs.Prelude.{ℕ};
ghost use Rattle.kc_btf.specs.Btf.{btf};
ghost use Rattle.kc_kallsyms.specs.Reading.{CountsReadFaults, Reads, judged};
ghost use Rattle.kc_modules.specs.Shapes.{sound};

use kc_btf::{Btf, BtfStop};
use kc_kallsyms::{TableFault, TableStop};
use std::alloc::Global;

/// The types of these bytes, a section `.BTF`.
///
/// # Errors
///
/// S12 where they break a rule; no memory was left.
pub fn sound_types(alloc: Global, bytes: Vec<u8>) -> Result<Btf, TableStop>
    ensures types { Reads (λ types. types) (judged (sound (btf bytes.items))) result }
    ensures quiet { (count : ℕ) → CountsReadFaults result count count }
{
    match Btf::read(alloc, bytes) {
        Ok(types) => Ok(types),
        Err(BtfStop::Fault(_)) => Err(TableStop::Table(TableFault::S12)),
        Err(BtfStop::NoMemory) => Err(TableStop::NoMemory),
    }
}
