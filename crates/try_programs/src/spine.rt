// A tree as deep as it has nodes, in a dump of made items.
ghost use Rattle.std.specs.Prelude.{◌≤◌, ◌<◌, ◌-◌, ◌^◌};

use byteorder::{ByteOrder, LittleEndian};
use kc_fixture::set_bytes;

// Where physical memory begins in the file, and where the first item stands in it.
const MEMORY: u64 = 0x2000;

const ITEMS: u64 = 0x10_0000;

// The tree's root word, by its physical address.
const ROOT: u64 = 0xb130;

const DIRECT: u64 = 0xffff_8880_0000_0000;

fn put_word(file: &mut Vec<u8>, pa: u64, word: u64)
    requires { pa ≤ 16777216 }
{
    let mut bytes = [0; 8];
    LittleEndian::write_u64(&mut bytes, word);
    set_bytes(file, (MEMORY + pa) as usize, &bytes);
}

// The address of an item's node in the direct map.
fn node(number: u64) -> u64
    requires { number ≤ 100000 }
    ensures { result < 2 ^ 64 - 1 }
{
    DIRECT + ITEMS + 64 * number + 40
}

// The key, the parent, black as all are, and the right and the left child, of one of so many items.
fn put_knot(file: &mut Vec<u8>, number: u64, of: u64)
    requires inside { number < of }
    requires few { of ≤ 100000 }
{
    let item = ITEMS + 64 * number;
    let parent = if number == 0 { 0 } else { node(number - 1) };
    let left = if number + 1 == of {
        0
    } else {
        node(number + 1)
    };
    put_word(file, item + 32, of - number);
    put_word(file, item + 40, parent + 1);
    put_word(file, item + 48, 0);
    put_word(file, item + 56, left);
}

/// Makes the tree of so many items a spine of left children, whose keys fall from the root on.
pub fn put_spine(file: &mut Vec<u8>, of: u64)
    requires { of ≤ 100000 }
{
    for number in 0..of {
        put_knot(file, number, of);
    }
    put_word(file, ROOT, node(0));
}
