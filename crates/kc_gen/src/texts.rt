// The texts: the note of the dump, the map and the plan.

// The text of the VMCOREINFO note.
pub(crate) const NOTE: &[u8] =
    b"PAGESIZE=4096\nNUMBER(phys_base)=0\nSYMBOL(init_top_pgt)=ffffffff80001000\nNUMBER(pgtable_l5_enabled)=0\nKERNELOFFSET=0\nNUMBER(sme_mask)=0\n";

// The map, as a kernel's build writes its System.map.
pub(crate) const MAP: &[u8] =
    b"ffffffff8000b000 D init_task\nffffffff8000b100 D slab_caches\nffffffff8000b110 D my_xa\nffffffff8000b120 D my_ring\nffffffff8000b130 D my_rb\nffffffff8000b140 D my_hl\nffff888000011000 D an_item\nffffea00000003c0 D a_slab\nffff888000020000 D far_ring\n";

// The plan: the ring, the tree and the xarray.
pub(crate) const PLAN: &[u8] =
    b"version = 1\n[[audit]]\nname = \"ring\"\nkind = \"ring\"\nroot = \"my_ring\"\nelement = \"item\"\nlink = \"link\"\n[[audit]]\nname = \"tree\"\nkind = \"rbtree\"\nroot = \"my_rb\"\nelement = \"item\"\nlink = \"rb\"\nkey = \"key\"\nunique = true\n[[audit]]\nname = \"array\"\nkind = \"xarray\"\nroot = \"my_xa\"\nelement = \"item\"\n";
