// The lines of words that hold a value.
ghost use Rattle.std.specs.Prelude.{◌≡◌, ◌++◌, nat_eq, Some, IfOk, OnOk};
ghost use Rattle.std.specs.List.{find};
ghost use Rattle.kc_owner.specs.declared.object.keys.CacheKey.{CacheKey as Key};
ghost use Rattle.kc_text.specs.Compose.{texts};
ghost use Rattle.kc_refs.specs.Lines.{found_lines, key_line, place_in, writing_text};

use kc_memory::{Origin, Place};
use kc_owner::CacheKey;
use kc_report::push_place;
use kc_sight::{FoundWord, Writing};
use kc_text::{push, push_hex, push_name};
use kc_word::NoMemory;
use std::alloc::Global;

// The place of a word that holds a value.
fn place_in(word: &FoundWord) -> Place
    ensures { result ≡ place_in word.now }
{
    Place {
        va: None,
        pa: word.place.pa,
        off: Origin::File(word.place.off),
        value: word.value,
    }
}

// The cache whose objects have such a free pointer.
fn push_key(text: &mut Vec<u8>, key: &CacheKey) -> Result<(), NoMemory>
    ensures { OnOk result (text.new.items ≡ text.old.items ++ key_line (Some key.now)) }
{
    push(text, b"encoded ")?;
    push_hex(text, key.cache.at)?;
    push(text, b" ")?;
    push_name(text, key.cache.name.as_slice())?;
    push(text, b"\n")
}

// That of the first of some caches with a random number.
fn push_first(text: &mut Vec<u8>, keys: &[CacheKey], random: u64) -> Result<(), NoMemory>
    ensures { OnOk result (text.new.items ≡ text.old.items ++ key_line (find (λ (k : Key). nat_eq k.random random) keys.now)) }
{
    for key in keys {
        if key.random == random {
            return push_key(text, key);
        }
    }
    Ok(())
}

// How a word holds the value, where it isn't as it is.
fn push_writing(text: &mut Vec<u8>, keys: &[CacheKey], writing: Writing) -> Result<(), NoMemory>
    ensures { OnOk result (text.new.items ≡ text.old.items ++ writing_text keys.now writing) }
{
    match writing {
        Writing::Plain => Ok(()),
        Writing::Encoded(random) => push_first(text, keys, random),
    }
}

// The lines of words that hold a value.
pub(crate) fn found_text(
    alloc: Global,
    keys: &[CacheKey],
    found: &[FoundWord],
) -> Result<Vec<u8>, NoMemory>
    ensures { IfOk result (λ text. text.items ≡ texts (found_lines keys.now) found.now) }
{
    let mut text = Vec::new(alloc);
    for word in found {
        push_place(&mut text, place_in(word))?;
        push_writing(&mut text, keys, word.writing)?;
    }
    Ok(text)
}
