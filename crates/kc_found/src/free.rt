// The free objects of a slab (`struct slab`). All offsets are in bytes, and addresses wrap at 2^64.
ghost use Rattle.std.specs.Prelude.{◌≡◌};
ghost use Rattle.kc_found.specs.FreeLists.{decoded, low_word};

use kc_memory::Scalar;

/// The objects of a slab, and where each free one has its pointer to the next.
#[derive(Clone, Copy, Debug, PartialEq, Eq)]
pub struct Grid {
    /// The virtual address of the first object.
    pub base: u64,
    /// The bytes from one object to the next.
    pub size: u64,
    /// How many objects there are.
    pub objects: u64,
    /// The offset of the free pointer from its object's address.
    pub offset: u64,
    /// The number that free pointers are encoded with, or `None` where they are plain.
    pub random: Option<u64>,
}

/// What leads to a site of a free list.
#[derive(Clone, Copy, Debug, PartialEq, Eq)]
pub struct FreeLed {
    /// The virtual address that the pointer has, or 0.
    pub to: u64,
    /// The number that holds the pointer, as it stands in memory.
    pub by: Scalar,
    /// Whether the slab's own pointer leads there.
    pub is_first: bool,
}

/// A number modulo 2^64.
pub fn low_word(number: &Scalar) -> u64
    ensures { result ≡ low_word number.now.value }
{
    number.value.rem_euclid(1 << 64) as u64
}

/// The pointer that a word at virtual address `at` stands for, in a cache whose `random` is this number: the kernel's
/// CONFIG_SLAB_FREELIST_HARDENED encodes free pointers so.
pub fn decode(word: u64, random: u64, at: u64) -> u64
    ensures { result ≡ decoded word random at }
{
    word ^ random ^ at.swap_bytes()
}
