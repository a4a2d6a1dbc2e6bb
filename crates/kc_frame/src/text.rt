// What is printed of a page's descriptor.
ghost use Rattle.std.specs.Prelude.{◌≡◌, ◌++◌, OnOk};
ghost use Rattle.kc_frame.specs.Text.{block_text, count_text, flags_line, flags_lines, frame_lines, free_line, free_lines, index_text, kind_text, mapping_line, mapping_lines, maps_text, zone_text};

use crate::block::FreeBlock;
use crate::frame::{FrameWords, FreePage};
use crate::words::{FrameFlags, FrameMapping, MappingKind};
use kc_found::Name;
use kc_text::{push, push_hex, push_name, push_numbered};
use kc_word::NoMemory;

// How many hold a page, by a number modulo 2^64: one of 2^63 or more is negative.
fn push_count(text: &mut Vec<u8>, count: u64) -> Result<(), NoMemory>
    ensures { OnOk result (text.new.items ≡ text.old.items ++ count_text count) }
{
    if count < 1 << 63 {
        push_numbered(text, b" count ", count)
    } else {
        push_numbered(text, b" count -", 0u64.wrapping_sub(count))
    }
}

// How many page tables map it.
fn push_maps(text: &mut Vec<u8>, maps: Option<u64>) -> Result<(), NoMemory>
    ensures { OnOk result (text.new.items ≡ text.old.items ++ maps_text maps) }
{
    match maps {
        Some(maps) => push_numbered(text, b" mapcount ", maps),
        None => Ok(()),
    }
}

fn push_flags_line(text: &mut Vec<u8>, flags: &FrameFlags) -> Result<(), NoMemory>
    ensures { OnOk result (text.new.items ≡ text.old.items ++ flags_line flags.now) }
{
    push(text, b"flags ")?;
    push_hex(text, flags.flags)?;
    push_count(text, flags.count)?;
    push_maps(text, flags.maps)?;
    push(text, b"\n")
}

fn push_flags(text: &mut Vec<u8>, flags: &Option<FrameFlags>) -> Result<(), NoMemory>
    ensures { OnOk result (text.new.items ≡ text.old.items ++ flags_lines flags.now) }
{
    match flags {
        Some(flags) => push_flags_line(text, flags),
        None => Ok(()),
    }
}

// What a page belongs to.
fn kind_text(kind: MappingKind) -> &'static [u8]
    ensures { result.now ≡ kind_text kind }
{
    match kind {
        MappingKind::Cache => b"mapping ",
        MappingKind::Anonymous => b"anonymous ",
        MappingKind::Movable => b"movable ",
        MappingKind::Same => b"ksm ",
    }
}

// Where in it the page is, of a page cache and of memory of tasks.
fn push_index(text: &mut Vec<u8>, mapping: &FrameMapping) -> Result<(), NoMemory>
    ensures { OnOk result (text.new.items ≡ text.old.items ++ index_text mapping.now.kind mapping.now.index) }
{
    match mapping.kind {
        MappingKind::Cache | MappingKind::Anonymous => {
            push_numbered(text, b" index ", mapping.index)
        }
        MappingKind::Movable | MappingKind::Same => Ok(()),
    }
}

fn push_mapping_line(text: &mut Vec<u8>, mapping: &FrameMapping) -> Result<(), NoMemory>
    ensures { OnOk result (text.new.items ≡ text.old.items ++ mapping_line mapping.now) }
{
    push(text, kind_text(mapping.kind))?;
    push_hex(text, mapping.at)?;
    push_index(text, mapping)?;
    push(text, b"\n")
}

fn push_mapping(text: &mut Vec<u8>, mapping: &Option<FrameMapping>) -> Result<(), NoMemory>
    ensures { OnOk result (text.new.items ≡ text.old.items ++ mapping_lines mapping.now) }
{
    match mapping {
        Some(mapping) => push_mapping_line(text, mapping),
        None => Ok(()),
    }
}

// The zone of a page.
fn push_zone(text: &mut Vec<u8>, zone: &Option<Name>) -> Result<(), NoMemory>
    ensures { OnOk result (text.new.items ≡ text.old.items ++ zone_text zone.now) }
{
    match zone {
        Some(name) => {
            push(text, b" zone ")?;
            push_name(text, name.as_slice())
        }
        None => Ok(()),
    }
}

fn push_block(text: &mut Vec<u8>, block: &FreeBlock) -> Result<(), NoMemory>
    ensures { OnOk result (text.new.items ≡ text.old.items ++ block_text block.now) }
{
    push_numbered(text, b"free order ", block.order)?;
    push_numbered(text, b" page ", block.page)
}

fn push_free_line(text: &mut Vec<u8>, free: &FreePage) -> Result<(), NoMemory>
    ensures { OnOk result (text.new.items ≡ text.old.items ++ free_line free.now) }
{
    push_block(text, &free.block)?;
    push_zone(text, &free.zone)?;
    push(text, b"\n")
}

fn push_free(text: &mut Vec<u8>, free: &Option<FreePage>) -> Result<(), NoMemory>
    ensures { OnOk result (text.new.items ≡ text.old.items ++ free_lines free.now) }
{
    match free {
        Some(free) => push_free_line(text, free),
        None => Ok(()),
    }
}

/// Adds the lines of what a page's descriptor says.
///
/// # Errors
///
/// No memory was left.
pub fn push_frame(text: &mut Vec<u8>, frame: &FrameWords) -> Result<(), NoMemory>
    ensures { OnOk result (text.new.items ≡ text.old.items ++ frame_lines frame.now) }
{
    push_flags(text, &frame.flags)?;
    push_mapping(text, &frame.mapping)?;
    push_free(text, &frame.free)
}
