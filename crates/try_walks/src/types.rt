// Types, and fields of them.
ghost use Rattle.std.specs.Prelude.{◌≡◌, ◌<◌, ◌≤◌};

use anyhow::Result;
use kc_btf::Btf;
use kc_fixture::Types;
use kc_layout::{Field, Hops};
use kc_word::Bits;
use std::alloc::Global;

/// Types without a record.
pub fn no_types(alloc: Global) -> Result<Btf> {
    Ok(Btf::read(alloc, Types::new(alloc)?.file(alloc)?)?)
}

/// The bits of a field that follows no pointer.
pub fn field(bit: u64, width: u8, signed: bool) -> Field
    requires some { 1 ≤ width }
    requires whole { width ≤ 64 }
    requires small { bit < 68719476736 }
{
    Field {
        hops: Hops {
            count: 0,
            a: 0,
            b: 0,
            c: 0,
            d: 0,
        },
        bits: Bits { bit, width, signed },
        ty: 0,
    }
}
