// The symbols of the made kernel.

/// The map, as a kernel's build writes its System.map.
pub const MAP: &str = "ffffffff8000b000 D init_task
ffffffff8000b100 D slab_caches
ffffffff8000b110 D my_xa
ffffffff8000b120 D my_ring
ffffffff8000b130 D my_rb
ffffffff8000b140 D my_hl
ffff888000011000 D an_item
ffffea00000003c0 D a_slab
ffff888000020000 D far_ring
";
