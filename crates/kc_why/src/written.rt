// What follows the lines of the words that hold a value.
ghost use Rattle.std.specs.Prelude.{◌≡◌, ◌++◌, Some, Ok, IfOk, OnOk};
ghost use Rattle.kc_text.specs.Compose.{texts};
ghost use Rattle.kc_why.specs.Searching.{keys_in};
ghost use Rattle.kc_why.specs.WordText.{broken_line, rest_text, unread_line, untold_lines};

use crate::searching::ToldKeys;
use kc_found::Found;
use kc_owner::{Cache, CacheKey, FreeKeys};
use kc_text::{push, push_hex, push_name, push_numbered};
use kc_told::push_unknown;
use kc_word::NoMemory;
use std::alloc::Global;

// A cache whose random number can't be read.
fn push_unread(text: &mut Vec<u8>, cache: &Cache) -> Result<(), NoMemory>
    ensures { OnOk result (text.new.items ≡ text.old.items ++ unread_line cache.now) }
{
    push(text, b"unread ")?;
    push_hex(text, cache.at)?;
    push(text, b" ")?;
    push_name(text, cache.name.as_slice())?;
    push(text, b"\n")
}

// Such caches.
fn push_all_unread(text: &mut Vec<u8>, caches: &[Cache]) -> Result<(), NoMemory>
    ensures { OnOk result (text.new.items ≡ text.old.items ++ texts unread_line caches.now) }
{
    for cache in caches {
        push_unread(text, cache)?;
    }
    Ok(())
}

// Why it can't be told what free pointers, or some of them, are encoded with.
fn push_broken(text: &mut Vec<u8>, found: &Found) -> Result<(), NoMemory>
    ensures { OnOk result (text.new.items ≡ text.old.items ++ broken_line (Some found.now)) }
{
    push(text, b"encoded")?;
    push_unknown(text, found)
}

// Such caches, and what their ring breaks.
fn push_keys(text: &mut Vec<u8>, keys: &FreeKeys) -> Result<(), NoMemory>
    ensures { OnOk result (text.new.items ≡ text.old.items ++ untold_lines (Some (Ok keys.now))) }
{
    push_all_unread(text, keys.unread.as_slice())?;
    match &keys.broken {
        None => Ok(()),
        Some(found) => push_broken(text, found),
    }
}

// Such caches, or why it can't be told what free pointers are encoded with.
fn push_untold(text: &mut Vec<u8>, told: &ToldKeys) -> Result<(), NoMemory>
    ensures { OnOk result (text.new.items ≡ text.old.items ++ untold_lines told.now) }
{
    match told {
        None => Ok(()),
        Some(Ok(keys)) => push_keys(text, keys),
        Some(Err(found)) => push_broken(text, found),
    }
}

// The caches that encode free pointers.
pub(crate) fn keys_in(told: &ToldKeys) -> &[CacheKey]
    ensures { result.now ≡ keys_in told.now }
{
    match told {
        Some(Ok(free)) => free.keys.as_slice(),
        _ => &[],
    }
}

/// What follows the lines of the words that hold a value, by what free pointers are encoded with and by how many words they are.
pub(crate) fn rest_text(alloc: Global, told: &ToldKeys, count: u64) -> Result<Vec<u8>, NoMemory>
    ensures { IfOk result (λ text. text.items ≡ rest_text told.now count) }
{
    let mut text = Vec::new(alloc);
    push_untold(&mut text, told)?;
    push_numbered(&mut text, b"words ", count)?;
    push(&mut text, b"\n")?;
    Ok(text)
}
