// A memory of the words that texts have.
use crate::fault::CaseFault;
use crate::names::value_of;
use kc_found::{ListSpace, Origin, VWord};
use std::alloc::{AllocError, Global};

// Both maps of memory lead to the address without its upper bits: the kernel's image, and the direct map.
const IMAGE: u64 = 0xffff_ffff_8000_0000;

const DIRECT: u64 = 0xffff_8880_0000_0000;

const MOST: u64 = 1 << 31;

// Words in the making, and the addresses whose words aren't there, or are the one before in physical memory.
#[derive(Drop)]
struct Made {
    words: Vec<VWord>,
    gone: Vec<u64>,
    twins: Vec<u64>,
}

/// The memory of the words of these texts, of which the first with an address counts. A word is `ADDRESS=VALUE`, and
/// `FROM..TO=VALUE` are the words before `TO`; each stands in both maps of memory, where it is in one. `ADDRESS=gone` is
/// one that isn't there, and `ADDRESS=twin` one that is the word before it in physical memory. A word without `=` says nothing
/// of memory.
///
/// # Errors
///
/// A word whose address or value is neither a number nor a name; out of memory.
pub fn space_of(
    alloc: Global,
    names: &str,
    changed: &str,
    words: &str,
) -> Result<ListSpace, CaseFault> {
    let mut made = Made {
        words: Vec::new(alloc),
        gone: Vec::new(alloc),
        twins: Vec::new(alloc),
    };
    made.note(names, changed)?;
    made.add(names, changed)?;
    made.add(names, words)?;
    Ok(ListSpace::new(made.words))
}

fn number_of(names: &str, word: &str) -> Result<u64, CaseFault> {
    value_of(names, word).ok_or(CaseFault::NoNumber)
}

impl Made {
    // Notes which words are gone or twins.
    fn note(&mut self, names: &str, text: &str) -> Result<(), CaseFault> {
        for word in text.split_whitespace() {
            match word.split_once('=') {
                Some((address, "gone")) => self.gone.push(number_of(names, address)?)?,
                Some((address, "twin")) => self.twins.push(number_of(names, address)?)?,
                _ => {}
            }
        }
        Ok(())
    }

    fn add(&mut self, names: &str, text: &str) -> Result<(), CaseFault> {
        for word in text.split_whitespace() {
            match word.split_once('=') {
                None | Some((_, "gone" | "twin")) => {}
                Some((addresses, value)) => {
                    let value = number_of(names, value)?;
                    self.add_range(names, addresses, value)?;
                }
            }
        }
        Ok(())
    }

    // The word at an address, or those from an address on and before another.
    fn add_range(&mut self, names: &str, addresses: &str, value: u64) -> Result<(), CaseFault> {
        match addresses.split_once("..") {
            Some((from, to)) => {
                self.add_words(number_of(names, from)?, number_of(names, to)?, value)?;
            }
            None => {
                let from = number_of(names, addresses)?;
                self.add_words(from, from.wrapping_add(8), value)?;
            }
        }
        Ok(())
    }

    fn add_words(&mut self, from: u64, to: u64, value: u64) -> Result<(), AllocError> {
        for i in 0..to.wrapping_sub(from) / 8 {
            let va = from.wrapping_add(i.wrapping_mul(8));
            self.add_word(va, value)?;
            if va >= IMAGE {
                self.add_word(DIRECT + va % MOST, value)?;
            } else if va >= DIRECT && va < DIRECT + MOST {
                self.add_word(IMAGE + va % MOST, value)?;
            }
        }
        Ok(())
    }

    fn add_word(&mut self, va: u64, value: u64) -> Result<(), AllocError> {
        if self.gone.contains(&va) {
            return Ok(());
        }
        let shown = if self.twins.contains(&va) {
            va.wrapping_sub(8)
        } else {
            va
        };
        let pa = shown % MOST;
        let off = Origin::File(pa.wrapping_add(0x2000));
        self.words.push(VWord { va, pa, off, value })?;
        Ok(())
    }
}
