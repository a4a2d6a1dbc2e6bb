// The words by which a kernel finds its memory, and a slab cache its slabs.
ghost use Rattle.std.specs.Prelude.{◌≡◌, ◌++◌, OnOk};
ghost use Rattle.kc_repair.specs.Suspect.Bases.{base_changes, bases_of, count_changes};

use crate::suspect::change::{Change, Changes, How};
use crate::suspect::rules::{each, to};
use kc_kinds::Kind;
use kc_view::Base;
use kc_word::NoMemory;

// Where page descriptors begin without KASLR, with four and with five levels.
const VMEMMAP_L4: u64 = 0xffff_ea00_0000_0000;

const VMEMMAP_L5: u64 = 0xffd4_0000_0000_0000;

// Where physical memory does.
const PAGE_OFFSET_L4: u64 = 0xffff_8880_0000_0000;

const PAGE_OFFSET_L5: u64 = 0xff11_0000_0000_0000;

// Adds a base's word, where there is one.
fn push_base(changes: &mut Changes, base: Base, four: u64, five: u64) -> Result<(), NoMemory>
    ensures { OnOk result (changes.new ≡ changes.old ++ base_changes base four five) }
{
    match base {
        Base::Is(_) => Ok(()),
        Base::At(at) => {
            changes.push(each(at))?;
            changes.push(to(at, four))?;
            changes.push(to(at, five))
        }
    }
}

// Adds the number of memory nodes, where it stands in a word.
fn push_count(changes: &mut Changes, count: Base) -> Result<(), NoMemory>
    ensures { OnOk result (changes.new ≡ changes.old ++ count_changes count) }
{
    match count {
        Base::Is(_) => Ok(()),
        Base::At(at) => changes.push(Change {
            at,
            how: How::Counted,
        }),
    }
}

// Adds those that a slab cache's walk goes by, and the cache's pointer to its first memory node.
pub(crate) fn push_bases(changes: &mut Changes, kind: &Kind, cache: u64) -> Result<(), NoMemory>
    ensures { OnOk result (changes.new ≡ changes.old ++ bases_of kind.now cache) }
{
    let Kind::Slub(shape) = kind else {
        return Ok(());
    };
    push_base(changes, shape.vmemmap, VMEMMAP_L4, VMEMMAP_L5)?;
    push_base(changes, shape.direct, PAGE_OFFSET_L4, PAGE_OFFSET_L5)?;
    push_count(changes, shape.node_ids)?;
    changes.push(each(cache.wrapping_add(shape.node)))
}
