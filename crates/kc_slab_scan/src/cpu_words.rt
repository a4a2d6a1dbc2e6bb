// Where the words stand that tell which slabs processors own.
ghost use Rattle.std.specs.Prelude.{◌≡◌};
ghost use Rattle.kc_kinds.specs.Kernels.{kernel};
ghost use Rattle.kc_slab_scan.specs.CpuShapes.{cpu_shape};

use kc_kinds::Known;
use kc_layout::Field;
use kc_owner::{scalar_in, single, struct_named};

/// Where the words stand that tell which slabs processors own (`struct kmem_cache_cpu`).
#[derive(Clone, Copy, Debug, PartialEq, Eq)]
pub struct CpuShape {
    /// The field `cpu_slab` of a cache: the address to which a processor's offset is added.
    pub cpu_slab: Field,
    /// The field `slab` there: the address of the slab's descriptor, or 0.
    pub slab: Field,
    /// The field `freelist` there: the address of the first free object, or 0.
    pub freelist: Field,
    /// The virtual address of the array of processors' offsets, `__per_cpu_offset`.
    pub offsets: u64,
    /// That of the bits of the processors that there may be, `__cpu_possible_mask`.
    pub possible: u64,
    /// That of the number of processors, `nr_cpu_ids`.
    pub count: u64,
}

/// Where a kernel has these words, or `None` where it lacks one of them, or where its map lists a symbol at two addresses.
#[tactic(auto, unfolding(crate::specs::CpuShapes::cpu_shape))]
pub fn cpu_shape(known: &Known<'_>) -> Option<CpuShape>
    ensures { result ≡ cpu_shape (kernel known.now) }
{
    let cache = struct_named(known, b"kmem_cache");
    let cpu = struct_named(known, b"kmem_cache_cpu");
    let cpu_slab = scalar_in(known.btf, cache, b"cpu_slab")?;
    let slab = scalar_in(known.btf, cpu, b"slab")?;
    let freelist = scalar_in(known.btf, cpu, b"freelist")?;
    let offsets = single(known, b"__per_cpu_offset")?;
    let possible = single(known, b"__cpu_possible_mask")?;
    let count = single(known, b"nr_cpu_ids")?;
    Some(CpuShape {
        cpu_slab,
        slab,
        freelist,
        offsets,
        possible,
        count,
    })
}
