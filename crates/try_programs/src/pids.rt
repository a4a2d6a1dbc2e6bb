// A table of process ids, and the one that it has.
use kc_fixture::set_word;

/// The row of the map that leads to it.
pub const TABLE: &str = "ffffffff80014000 D my_idr";

// The direct map, which leads to the physical address that is added.
const D: u64 = 0xffff_8880_0000_0000;

// The table's head; its one node, whose slot 2 has the process id; its chain and its number; and the task on the chain.
const WORDS: [(u64, u64); 8] = [
    (0x14008, D + 0x14102),
    (0x14100, 0x10000),
    (0x14110, 0xffff_ffff_8001_4000),
    (0x14128, D + 0x14040),
    (0x14048, D + 0xd168),
    (0x14050, 2),
    (0xd170, D + 0x14048),
    (0xd178, D + 0x14040),
];

/// Puts the words of both into a dump.
pub fn put_pids(dump: &mut Vec<u8>) {
    for (pa, word) in WORDS {
        set_word(dump, pa, word);
    }
}
