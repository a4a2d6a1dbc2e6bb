// The lines of modules.
ghost use Rattle.std.specs.Prelude.{◌≡◌, ◌++◌, OnOk};
ghost use Rattle.kc_memory.specs.Stays.{SpaceStays};
ghost use Rattle.kc_kallsyms.specs.Reading.{CountsReadFaults, ReadsAs};
ghost use Rattle.kc_modules.specs.Lines.{line, lines_at, modules_at};
ghost use Rattle.kc_modules.specs.Views.{entry_view};

use crate::entry::{ModuleEntry, read_entry, text_of};
use crate::nodes::read_nodes;
use crate::shape::{ModuleFields, module_fields};
use crate::types::sound_types;
use kc_kallsyms::{ListStart, ModuleList, Places, TableStop, read_list_start};
use kc_memory::Space;
use kc_text::{push, push_hex, push_name_or_dash, push_numbered};
use kc_word::{NoMemory, Steps};
use std::alloc::Global;
use std::sync::ledger::Ledger;

// Adds the line of a module.
fn push_entry(text: &mut Vec<u8>, entry: &ModuleEntry) -> Result<(), NoMemory>
    ensures { OnOk result (text.new.items ≡ text.old.items ++ line (entry_view entry.now)) }
{
    push_name_or_dash(text, text_of(&entry.name))?;
    push_numbered(text, b" ", entry.size)?;
    push(text, b" ")?;
    push_hex(text, entry.base)?;
    push(text, b"\n")
}

// The lines of the modules at these nodes.
fn read_lines<S: Space, L: Ledger>(
    alloc: Global,
    space: &mut S,
    shape: &ModuleFields,
    nodes: &[u64],
    steps: &mut Steps<L>,
) -> Result<Vec<u8>, TableStop>
    ensures lines { ReadsAs (λ v. v.items) (λ image. lines_at image shape.now nodes.now) (S.image space.old) result }
    ensures stays { SpaceStays S.image S.files S.through S.most space.old space.new }
    ensures cause { CountsReadFaults result (S.faults space.old) (S.faults space.new) }
{
    let mut text = Vec::new(alloc);
    for node in nodes {
        let entry = read_entry(alloc, space, shape, *node, steps)?;
        push_entry(&mut text, &entry)?;
    }
    Ok(text)
}

/// The modules of a kernel, a line each with name, size in bytes and address, in the order of the kernel's list, by the symbol table that lies
/// at these places of its dump's memory (kernel/module/procfs.c, m_show). KASLR moved the kernel's image by `kaslr` bytes.
///
/// # Errors
///
/// A word that can't be read; the first of S5 to S15; no memory was left.
#[tactic(auto, unfolding(crate::specs::Lines::modules_at))]
pub fn read_modules<S: Space, L: Ledger>(
    alloc: Global,
    space: &mut S,
    places: &Places,
    kaslr: u64,
    steps: &mut Steps<L>,
) -> Result<Vec<u8>, TableStop>
    ensures modules { ReadsAs (λ v. v.items) (λ image. modules_at image kaslr places.now) (S.image space.old) result }
    ensures stays { SpaceStays S.image S.files S.through S.most space.old space.new }
    ensures cause { CountsReadFaults result (S.faults space.old) (S.faults space.new) }
{
    let ListStart { types, head } = read_list_start(
        alloc,
        space,
        places,
        kaslr,
        ModuleList::Loaded,
        steps,
    )?;
    let types = sound_types(alloc, types)?;
    let shape = module_fields(&types)?;
    let nodes = read_nodes(alloc, space, head, steps)?;
    read_lines(alloc, space, &shape, &nodes, steps)
}
