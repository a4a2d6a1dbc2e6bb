// What is looked for.
ghost use Rattle.std.specs.Prelude.{◌≡◌, ◌+◌, ◌%◌, ◌≤◌, ◌<◌, drop, false, get_or, length, vec_len, IsTrue, IfOk};
ghost use Rattle.std.specs.List.{list_all};
ghost use Rattle.byteorder.specs.Endian.{little_number};
ghost use Rattle.kc_sight.specs.Refs.Writings.{NoneHolds, codes, has_bit, is_among, is_near, writing};

use kc_found::decode;
use kc_word::NoMemory;
use std::alloc::{AllocError, Global};
use std::marker::Model;

/// How a word holds a value.
#[derive(Clone, Copy, Debug, PartialEq, Eq)]
pub enum Writing {
    /// As it is.
    Plain,
    /// As the free pointer of an object, encoded with the random number of its slab cache, which this is.
    Encoded(u64),
}

// How many bits a filter has.
const FILTER: usize = 65_536;

// Addresses that are the same but for their lowest 48 bits are within so many bytes.
const NEAR: u64 = 0x1_0000_0000_0000;

const WORD_BYTES: usize = 8;

/// How many words are looked at together.
pub(crate) const GROUP: u64 = 8;

/// A value that is looked for, as it is and as an encoded free pointer.
#[derive(Drop)]
pub struct Sought {
    value: u64,
    direct: u64,
    randoms: Vec<u64>,
    // Whether one of the random numbers has these lowest 16 bits.
    filter: Vec<bool>,
    // Whether a word with these lowest 16 bits may hold the value near the direct map's beginning. Nearly every word is told by it alone.
    near: Vec<bool>,
    ghost size: { vec_len filter ≡ 65536 },
    ghost law: { IsTrue (list_all (has_bit filter.items) randoms.items) },
    ghost near_size: { vec_len near ≡ 65536 },
    ghost near_law: { IsTrue (list_all (has_bit near.items) (codes value direct randoms.items)) },
}

impl Model for Sought {
    ghost use Rattle.kc_sight.specs.Refs.Writings.{Sought};

    ghost Value = { Sought };

    ghost view = { λ s. record { value = s.value; direct = s.direct; randoms = s.randoms.items } };
}

// A filter that has none.
fn no_bits(alloc: Global) -> Result<Vec<bool>, AllocError>
    ensures { IfOk result (λ filter. vec_len filter ≡ 65536) }
{
    vec![in alloc; false; FILTER]
}

// The place of a random number in the filter.
fn bit_of(random: u64) -> usize
    ensures { result ≡ random % 65536 }
{
    (random % FILTER as u64) as usize
}

// Puts random numbers into a filter.
fn set_bits(filter: &mut Vec<bool>, randoms: &[u64])
    requires { vec_len filter.old ≡ 65536 }
    ensures size { vec_len filter.new ≡ 65536 }
    ensures law { IsTrue (list_all (has_bit filter.new.items) randoms.now) }
{
    for random in randoms {
        filter[bit_of(*random)] = true;
    }
}

// The words that hold a value where the direct map begins.
fn codes(alloc: Global, value: u64, direct: u64, randoms: &[u64]) -> Result<Vec<u64>, NoMemory>
    ensures { IfOk result (λ words. words.items ≡ codes value direct randoms.now) }
{
    let mut words = Vec::new(alloc);
    words.push(value)?;
    for random in randoms {
        words.push(decode(value, *random, direct))?;
    }
    Ok(words)
}

// The lowest 16 bits of the word that begins at a byte. Its bytes are taken as one.
#[inline(always)]
fn low_bits(bytes: &[u8], at: usize) -> usize
    requires { at + 8 ≤ length bytes.now }
    ensures low { result ≡ little_number 8 (drop at bytes.now) % 65536 }
    ensures below { result < 65536 }
{
    bit_of(u64::from_le_bytes(*bytes[at..].first_chunk::<8>().unwrap()))
}

impl Sought {
    /// A value that is looked for: as it is, and as a free pointer in an object of a slab cache that has one of these random numbers.
    /// Where a free pointer stands is an address in the direct map, which begins at the virtual address `direct`.
    ///
    /// # Errors
    ///
    /// Out of memory.
    pub fn new(alloc: Global, value: u64, direct: u64, randoms: Vec<u64>) -> Result<Self, NoMemory>
        ensures { IfOk result (λ s. s ≡ record { value = value; direct = direct; randoms = randoms.items }) }
    {
        let mut filter = no_bits(alloc)?;
        set_bits(&mut filter, &randoms);
        let mut near = no_bits(alloc)?;
        set_bits(&mut near, &codes(alloc, value, direct, &randoms)?);
        Ok(Sought {
            value,
            direct,
            randoms,
            filter,
            near,
        })
    }

    // Whether all words before a physical address stand near the direct map's beginning: at addresses with its upper 16 bits.
    pub(crate) fn is_near(&self, end: u64) -> bool
        ensures { result ≡ is_near self.now.direct end }
    {
        end < NEAR - self.direct % NEAR
    }

    // Whether one of eight words near the direct map's beginning may hold the value.
    pub(crate) fn may_hold(&self, bytes: &[u8]) -> bool
        requires { 64 ≤ length bytes.now }
        ensures { result ≡ false → NoneHolds self.now bytes.now 8 }
    {
        let mut may = false;
        for k in 0..GROUP as usize {
            may = may | self.near[low_bits(bytes, WORD_BYTES * k)];
        }
        may
    }

    // How a word at a physical address holds the value, where it does.
    pub(crate) fn writing(&self, word: u64, pa: u64) -> Option<Writing>
        ensures { result ≡ writing self.now word pa }
    {
        if word == self.value {
            return Some(Writing::Plain);
        }
        let random = decode(word, self.value, self.direct.wrapping_add(pa));
        if self.filter[bit_of(random)] && is_among(random, &self.randoms) {
            Some(Writing::Encoded(random))
        } else {
            None
        }
    }
}

fn is_among(random: u64, randoms: &[u64]) -> bool
    ensures { result ≡ is_among random randoms.now }
{
    randoms.iter().any(|one| *one == random)
}
