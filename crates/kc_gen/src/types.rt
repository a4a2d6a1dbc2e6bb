// The file of types.
ghost use Rattle.std.specs.Prelude.{◌≡◌, ◌++◌, flat_map, IfOk, OnOk};
ghost use Rattle.kc_gen.specs.Types.{btf, numbers_bytes};

use crate::bytes::push_number;
use kc_word::NoMemory;
use std::alloc::Global;

// The kinds of records, and what is added to them: the flag of bit-fields, and how many members there are.
const INT: u32 = 0x100_0000;

const PTR: u32 = 0x200_0000;

const ARRAY: u32 = 0x300_0000;

const STRUCT: u32 = 0x400_0000;

const UNION: u32 = 0x500_0000;

const FLAG: u32 = 0x8000_0000;

// What is added to the bits of a number with a sign.
const SIGNED: u32 = 0x100_0000;

// The numbers, and then the other types with a row for each record and for each member, and two for an array. A row begins with
// the place of the name in `NAMES`; then come the kind or the member's type, and the size, the type that is stood on, or the bit.
const INTS: [[u32; 4]; 4] = [
    [1, INT, 8, 64], // unsigned long
    [15, INT, 1, 8], // unsigned char
    [29, INT, 4, 32], // unsigned int
    [42, INT, 4, SIGNED + 32], // int
];

const ROWS: [[u32; 3]; 88] = [
    [0, PTR, 0], // 5
    [46, STRUCT + 2, 16], // 6 list_head
    [56, 7, 0], // .next
    [61, 7, 64], // .prev
    [0, PTR, 6], // 7
    [66, STRUCT + 2, 16], // 8 hlist_node
    [56, 9, 0], // .next
    [77, 5, 64], // .pprev
    [0, PTR, 8], // 9
    [83, STRUCT + 1, 8], // 10 hlist_head
    [94, 9, 0], // .first
    [100, STRUCT + 3, 24], // 11 rb_node
    [108, 1, 0], // .__rb_parent_color
    [126, 12, 64], // .rb_right
    [135, 12, 128], // .rb_left
    [0, PTR, 11], // 12
    [143, STRUCT + 1, 8], // 13 rb_root
    [100, 12, 0], // .rb_node
    [151, STRUCT + 2, 16], // 14 rb_root_cached
    [143, 13, 0], // .rb_root
    [166, 12, 64], // .rb_leftmost
    [0, ARRAY, 0], // 15
    [5, 3, 16],
    [178, STRUCT + 7, 152], // 16 xa_node
    [186, 2, 0], // .shift
    [192, 2, 8], // .offset
    [199, 2, 16], // .count
    [205, 2, 24], // .nr_values
    [215, 17, 64], // .parent
    [222, 5, 128], // .array
    [228, 15, 192], // .slots
    [0, PTR, 16], // 17
    [234, STRUCT + 3, 16], // 18 xarray
    [241, 3, 0], // .xa_lock
    [249, 3, 32], // .xa_flags
    [258, 5, 64], // .xa_head
    [266, STRUCT + 3, 32], // 19 kmem_cache_node
    [282, 3, 0], // .list_lock
    [292, 1, 64], // .nr_partial
    [303, 6, 128], // .partial
    [0, PTR, 19], // 20
    [0, ARRAY, 0], // 21
    [20, 3, 1],
    [311, STRUCT + 7, 48], // 22 kmem_cache
    [322, 3, 0], // .size
    [327, 3, 32], // .object_size
    [192, 3, 64], // .offset
    [339, 3, 96], // .red_left_pad
    [352, 1, 128], // .random
    [359, 6, 192], // .list
    [364, 21, 320], // .node
    [0, PTR, 22], // 23
    [0, STRUCT + 3 + FLAG, 4], // 24
    [369, 3, 0x10000000], // .inuse
    [375, 3, 0xf000010], // .objects
    [383, 3, 0x100001f], // .frozen
    [0, UNION + 2, 8], // 25
    [390, 1, 0], // .counters
    [0, 24, 0],
    [399, STRUCT + 5, 64], // 26 slab
    [404, 1, 0], // .__page_flags
    [417, 23, 64], // .slab_cache
    [428, 6, 128], // .slab_list
    [438, 5, 256], // .freelist
    [0, 25, 320],
    [447, STRUCT + 1, 64], // 27 page
    [452, 1, 0], // .flags
    [458, STRUCT + 1, 16], // 28 signal_struct
    [472, 6, 0], // .thread_head
    [0, PTR, 28], // 29
    [0, PTR, 31], // 30
    [484, STRUCT + 10, 104], // 31 task_struct
    [496, 5, 0], // .stack
    [502, 6, 64], // .tasks
    [508, 4, 192], // .pid
    [512, 4, 224], // .tgid
    [517, 30, 256], // .real_parent
    [529, 6, 320], // .children
    [538, 6, 448], // .sibling
    [546, 30, 576], // .group_leader
    [559, 29, 640], // .signal
    [566, 6, 704], // .thread_node
    [578, STRUCT + 5 + FLAG, 64], // 32 item
    [583, 6, 0], // .link
    [588, 8, 128], // .hnode
    [594, 4, 256], // .key
    [598, 4, 0x3000120], // .small
    [604, 11, 320], // .rb
];

// The names, each of which ends with a zero.
const NAMES: &[u8] =
    b"\0unsigned long\0unsigned char\0unsigned int\0int\0list_head\0next\0prev\0hlist_node\0pprev\0hlist_head\0first\0rb_node\0__rb_parent_color\0rb_right\0rb_left\0rb_root\0rb_root_cached\0rb_leftmost\0xa_node\0shift\0offset\0count\0nr_values\0parent\0array\0slots\0xarray\0xa_lock\0xa_flags\0xa_head\0kmem_cache_node\0list_lock\0nr_partial\0partial\0kmem_cache\0size\0object_size\0red_left_pad\0random\0list\0node\0inuse\0objects\0frozen\0counters\0slab\0__page_flags\0slab_cache\0slab_list\0freelist\0page\0flags\0signal_struct\0thread_head\0task_struct\0stack\0tasks\0pid\0tgid\0real_parent\0children\0sibling\0group_leader\0signal\0thread_node\0item\0link\0hnode\0key\0small\0rb\0";

fn push_numbers(bytes: &mut Vec<u8>, numbers: &[u32]) -> Result<(), NoMemory>
    ensures { OnOk result (bytes.new.items ≡ bytes.old.items ++ numbers_bytes numbers.now) }
{
    for number in numbers {
        push_number(bytes, 4, u64::from(*number))?;
    }
    Ok(())
}

fn push_ints(bytes: &mut Vec<u8>, ints: &[[u32; 4]]) -> Result<(), NoMemory>
    ensures { OnOk result (bytes.new.items ≡ bytes.old.items ++ flat_map numbers_bytes ints.now) }
{
    for int in ints {
        push_numbers(bytes, int)?;
    }
    Ok(())
}

fn push_rows(bytes: &mut Vec<u8>, rows: &[[u32; 3]]) -> Result<(), NoMemory>
    ensures { OnOk result (bytes.new.items ≡ bytes.old.items ++ flat_map numbers_bytes rows.now) }
{
    for row in rows {
        push_numbers(bytes, row)?;
    }
    Ok(())
}

// The file: a header of 24 bytes, the records, and the names.
#[tactic(auto, unfolding(crate::specs::Types::btf))]
pub(crate) fn types_file(alloc: Global) -> Result<Vec<u8>, NoMemory>
    ensures { IfOk result (λ bytes. bytes.items ≡ btf) }
{
    let mut bytes = Vec::new(alloc);
    let length = 16 * INTS.len() as u32 + 12 * ROWS.len() as u32;
    push_numbers(
        &mut bytes,
        &[0x1_eb9f, 24, 0, length, length, NAMES.len() as u32],
    )?;
    push_ints(&mut bytes, &INTS)?;
    push_rows(&mut bytes, &ROWS)?;
    bytes.extend_from_slice(NAMES)?;
    Ok(bytes)
}
