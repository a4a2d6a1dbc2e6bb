// The processors of a kernel.
ghost use Rattle.std.specs.Prelude.{◌≡◌, ◌<◌, ◌≤◌, ◌++◌, [], option_to_list, min, false, IfOk, OnOk};
ghost use Rattle.kc_memory.specs.Stays.{SpaceStays};
ghost use Rattle.kc_found.specs.Walks.{CountsWalkFaults, OnBroken, OnWalkFault, WalksAs};
ghost use Rattle.kc_slab_scan.specs.Cpus.{count_of, cpu_at, cpus_from, cpus_in, is_possible, with_cpu, word_in};

use crate::cpu_words::CpuShape;
use crate::totals::push_item;
use kc_found::{Items, Space, WalkStop, low_word, read_bits, stopped};
use kc_owner::looked_at;
use kc_word::{Bits, Steps};
use std::alloc::Global;
use std::sync::ledger::Ledger;

// How many processors are looked at, at most: the kernel's largest NR_CPUS.
const PROCESSORS: u64 = 8192;

/// A processor.
#[derive(Clone, Copy, Debug, PartialEq, Eq)]
pub struct Cpu {
    /// Its number.
    pub number: u64,
    /// What is added to the address of a variable of which it has a copy.
    pub offset: u64,
}

/// The processors that there may be, by their numbers.
pub type Cpus = Items<Cpu>;

// A bit is set in a word.
fn is_possible(word: u64, number: u64) -> bool
    ensures { result ≡ is_possible word number }
{
    (word >> (number % 64)) % 2 == 1
}

// How many processors the kernel has, of so many at most.
fn read_count<S: Space, L: Ledger>(
    alloc: Global,
    space: &mut S,
    shape: &CpuShape,
    steps: &mut Steps<L>,
) -> Result<u64, WalkStop>
    ensures exact { WalksAs (λ n. n) (λ i. count_of i shape.now) (S.image space.old) result }
    ensures few { IfOk result (λ n. n ≤ 8192) }
    ensures stays { SpaceStays S.image S.files S.through S.most space.old space.new }
    ensures cause { CountsWalkFaults result (S.faults space.old) (S.faults space.new) }
{
    let bits = Bits {
        bit: 0,
        width: 32,
        signed: false,
    };
    match read_bits(space, shape.count, bits, steps) {
        Ok(number) => Ok(low_word(&number).min(PROCESSORS)),
        Err(stop) => Err(stopped(alloc, &looked_at(shape.count), stop, None)),
    }
}

// The word at an index of an array.
fn read_word<S: Space, L: Ledger>(
    alloc: Global,
    space: &mut S,
    array: u64,
    index: u64,
    steps: &mut Steps<L>,
) -> Result<u64, WalkStop>
    requires { index < 8192 }
    ensures exact { WalksAs (λ n. n) (λ i. word_in i array index) (S.image space.old) result }
    ensures stays { SpaceStays S.image S.files S.through S.most space.old space.new }
    ensures cause { CountsWalkFaults result (S.faults space.old) (S.faults space.new) }
{
    match space.word(array.wrapping_add(8 * index), steps) {
        Ok(word) => Ok(word.value),
        Err(stop) => Err(stopped(alloc, &looked_at(array), stop, None)),
    }
}

// The processor with a number, where there may be one.
fn read_cpu<S: Space, L: Ledger>(
    alloc: Global,
    space: &mut S,
    shape: &CpuShape,
    number: u64,
    steps: &mut Steps<L>,
) -> Result<Option<Cpu>, WalkStop>
    requires { number < 8192 }
    ensures exact { WalksAs (λ c. c) (λ i. cpu_at i shape.now number) (S.image space.old) result }
    ensures stays { SpaceStays S.image S.files S.through S.most space.old space.new }
    ensures cause { CountsWalkFaults result (S.faults space.old) (S.faults space.new) }
{
    let word = read_word(alloc, space, shape.possible, number / 64, steps)?;
    if !is_possible(word, number) {
        return Ok(None);
    }
    let offset = read_word(alloc, space, shape.offsets, number, steps)?;
    Ok(Some(Cpu { number, offset }))
}

// Adds a processor, where there is one.
fn push_cpu(cpus: &mut Cpus, cpu: Option<Cpu>) -> Result<(), WalkStop>
    ensures added { OnOk result (cpus.new ≡ cpus.old ++ option_to_list cpu) }
    ensures broken { OnBroken result ⊥ }
    ensures no_fault { OnWalkFault result ⊥ }
{
    let Some(cpu) = cpu else {
        return Ok(());
    };
    push_item(cpus, cpu)
}

// Adds the processor with a number, where there may be one.
fn add_cpu<S: Space, L: Ledger>(
    alloc: Global,
    space: &mut S,
    shape: &CpuShape,
    number: u64,
    cpus: &mut Cpus,
    steps: &mut Steps<L>,
) -> Result<(), WalkStop>
    requires { number < 8192 }
    ensures exact { WalksAs (λ _. cpus.new) (λ i. with_cpu i shape.now cpus.old number) (S.image space.old) result }
    ensures stays { SpaceStays S.image S.files S.through S.most space.old space.new }
    ensures cause { CountsWalkFaults result (S.faults space.old) (S.faults space.new) }
{
    let cpu = read_cpu(alloc, space, shape, number, steps)?;
    push_cpu(cpus, cpu)
}

// So many processors at most, from number 0 on.
fn read_numbers<S: Space, L: Ledger>(
    alloc: Global,
    space: &mut S,
    shape: &CpuShape,
    count: u64,
    steps: &mut Steps<L>,
) -> Result<Cpus, WalkStop>
    requires { count ≤ 8192 }
    ensures exact { WalksAs (λ c. c) (λ i. cpus_from i shape.now count 0 []) (S.image space.old) result }
    ensures stays { SpaceStays S.image S.files S.through S.most space.old space.new }
    ensures cause { CountsWalkFaults result (S.faults space.old) (S.faults space.new) }
{
    let mut cpus = Cpus::new(alloc);
    let mut number = 0;
    while number < count {
        match add_cpu(alloc, space, shape, number, &mut cpus, steps) {
            Ok(()) => {}
            Err(stop) => return Err(stop),
        }
        number += 1;
    }
    Ok(cpus)
}

/// The processors that there may be, of 8192 at most, by their numbers.
///
/// # Errors
///
/// The violation by a word that can't be read; a failure of the space, whose count of faults then rose; or out of memory.
pub fn read_cpus<S: Space, L: Ledger>(
    alloc: Global,
    space: &mut S,
    shape: &CpuShape,
    steps: &mut Steps<L>,
) -> Result<Cpus, WalkStop>
    ensures exact { WalksAs (λ c. c) (λ i. cpus_in i shape.now) (S.image space.old) result }
    ensures stays { SpaceStays S.image S.files S.through S.most space.old space.new }
    ensures cause { CountsWalkFaults result (S.faults space.old) (S.faults space.new) }
{
    let count = read_count(alloc, space, shape, steps)?;
    read_numbers(alloc, space, shape, count, steps)
}
