// The text of what is seen of an address, and of what is told of it.
ghost use Rattle.std.specs.Prelude.{◌≡◌, ◌++◌, IfOk, OnOk};
ghost use Rattle.kc_sight.specs.Views.{sight_view};
ghost use Rattle.kc_told.specs.SeenText.{holding_lines, map_symbols, seen_text, told_lines};
ghost use Rattle.kc_told.specs.Views.{told_view};

use crate::area_text::push_areas;
use crate::inside::push_covers;
use crate::named::push_named;
use crate::object_text::push_objects;
use crate::text::{push_head, push_sight, push_symbol_line};
use crate::told::{Sighted, Told};
use kc_sight::ImageMap;
use kc_word::NoMemory;
use std::alloc::Global;

// What holds an address, what its object says it is, and how words that say the same lie in it.
fn push_holding(text: &mut Vec<u8>, address: u64, told: &Told<'_>) -> Result<(), NoMemory>
    ensures { OnOk result (text.new.items ≡ text.old.items ++ holding_lines address (told_view told.now)) }
{
    push_objects(text, &told.holders, &told.kept, &told.frame, &told.held)?;
    push_named(text, &told.named)?;
    push_covers(text, address, told.span, &told.held)
}

/// The text of what is seen of an address and of what is told of it, by the symbols of a map.
///
/// # Errors
///
/// No memory was left.
pub fn seen_text(
    alloc: Global,
    image: &ImageMap<'_>,
    seen: &Sighted<'_>,
) -> Result<Vec<u8>, NoMemory>
    ensures { IfOk result (λ text. text.items ≡ seen_text (map_symbols image.now) (sight_view seen.now.sight) (told_view seen.now.told) seen.now.near.items) }
{
    let mut text = Vec::new(alloc);
    push_head(&mut text, image, seen.sight.address)?;
    push_areas(&mut text, image, &seen.told.areas, &seen.told.symbol)?;
    push_sight(&mut text, image, &seen.sight, &seen.near)?;
    push_holding(&mut text, seen.sight.address, &seen.told)?;
    Ok(text)
}

/// Adds the lines of what is told of an address, by the symbols of a map.
///
/// # Errors
///
/// No memory was left.
pub fn push_told(
    text: &mut Vec<u8>,
    image: &ImageMap<'_>,
    address: u64,
    told: &Told<'_>,
) -> Result<(), NoMemory>
    ensures { OnOk result (text.new.items ≡ text.old.items ++ told_lines (map_symbols image.now) address (told_view told.now)) }
{
    push_symbol_line(text, image.symbol(address), address)?;
    push_areas(text, image, &told.areas, &told.symbol)?;
    push_holding(text, address, told)
}
