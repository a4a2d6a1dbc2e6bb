// What is sought in the memory of a dump, by its notes.
ghost use Rattle.std.specs.Prelude.{Some};
ghost use Rattle.kc_outside.specs.declared.store.Slot.TheVariants.{Dump};
ghost use Rattle.kc_kallsyms.specs.Places.{places_in};
ghost use Rattle.kc_command.specs.declared.refusal.Refusal.TheVariants.{Tables};
ghost use Rattle.kc_command.specs.Made.{Tells, checked};
ghost use Rattle.kc_command.specs.Slots.{IsAbout};
ghost use Rattle.kc_files.specs.Sought.{sought_in, sought_view};
ghost use Rattle.kc_files.specs.Wishes.{wish_view};

use crate::wish::Wish;
use kc_command::Refusal;
use kc_elf::Core;
use kc_kallsyms::{Places, places_in};
use kc_notes::vmcoreinfo;

/// What is sought in the memory of a dump.
#[derive(Clone, Copy)]
pub enum SoughtFile<'n> {
    /// The map, by where the tables of its symbols lie.
    Map(Places),
    /// The types, by where the tables of the kernel's symbols lie.
    Types(Places),
    /// The log, by the text of VMCOREINFO.
    Log(&'n [u8]),
    /// The modules, by where the tables of the kernel's symbols lie.
    Modules(Places),
    /// The types of the module with this name, by the same.
    Module(Places, &'n [u8]),
}

// Where the tables lie, by the text of VMCOREINFO.
fn read_places(note: &[u8]) -> Result<Places, Refusal>
    ensures made { Tells (λ places. places) (checked Tables (places_in note.now)) result }
    ensures refused { IsAbout (Some Dump) result }
{
    Ok(places_in(note)?)
}

/// What is sought for a wish, by the notes of a dump.
///
/// # Errors
///
/// The first fault V1 or V2 of the notes; but for the log S4, where a line of VMCOREINFO is missing.
#[tactic(auto, unfolding(crate::specs::Sought::sought_in))]
pub fn sought_by<'n>(core: &'n Core, wish: Wish<'n>) -> Result<SoughtFile<'n>, Refusal>
    ensures made { Tells sought_view (sought_in (wish_view wish.entry) core.now.notes) result }
    ensures refused { IsAbout (Some Dump) result }
{
    let note = vmcoreinfo(core)?;
    match wish {
        Wish::Map => Ok(SoughtFile::Map(read_places(note)?)),
        Wish::Types => Ok(SoughtFile::Types(read_places(note)?)),
        Wish::Log => Ok(SoughtFile::Log(note)),
        Wish::Modules => Ok(SoughtFile::Modules(read_places(note)?)),
        Wish::Module(name) => Ok(SoughtFile::Module(read_places(note)?, name.as_bytes())),
    }
}
