// What is wished of a dump, asked of its memory.
ghost use Rattle.std.specs.Prelude.{◌≡◌, ⊤, Some, option_map};
ghost use Rattle.kc_outside.specs.declared.store.Slot.TheVariants.{Dump};
ghost use Rattle.kc_outside.specs.Files.{content};
ghost use Rattle.kc_phys.specs.Stored.{AreInside};
ghost use Rattle.kc_question.specs.Memory.{bare_image};
ghost use Rattle.kc_command.specs.Paging.{IsTable, by_info};
ghost use Rattle.kc_files.specs.Reading.{CountsUnread, ReadsAs};
ghost use Rattle.kc_files.specs.Sought.{sought_view};
ghost use Rattle.kc_files.specs.Wished.{wished};

use crate::sought::SoughtFile;
use crate::unread::{Unread, log_answer, tables_answer};
use kc_command::{Noted, paging_by};
use kc_kallsyms::{read_map, read_types};
use kc_memory::Space;
use kc_modules::{read_module_types, read_modules};
use kc_outside::Store;
use kc_printk::read_log;
use kc_question::{Question, ask_dump};
use kc_word::{Steps, Tail};
use std::alloc::Global;
use std::sync::ledger::Ledger;

// A file that is sought in a kernel's memory.
#[derive(Drop)]
struct WishedFile<'p> {
    alloc: Global,
    sought: &'p SoughtFile<'p>,
    // How far KASLR moved the kernel's image, in bytes.
    kaslr: u64,
}

impl<'p> Question for WishedFile<'p> {
    type Answer = Result<Vec<u8>, Unread>;

    ghost may = { λ _. ⊤ };

    ghost says = { λ of image answer. ReadsAs (λ v. v.items) (λ i. wished (sought_view of.sought.now) i of.kaslr) (Some image) answer };

    ghost leaves = { λ _ answer before after. CountsUnread answer before after };

    fn ask<M: Space, L: Ledger>(
        &self,
        memory: &mut M,
        steps: &mut Steps<L>,
    ) -> Result<Vec<u8>, Unread> {
        match self.sought {
            SoughtFile::Map(places) => {
                tables_answer(read_map(self.alloc, memory, places, self.kaslr, steps))
            }
            SoughtFile::Types(places) => {
                tables_answer(read_types(self.alloc, memory, places, self.kaslr, steps))
            }
            SoughtFile::Log(note) => log_answer(read_log(self.alloc, memory, note, steps)),
            SoughtFile::Modules(places) => {
                tables_answer(read_modules(self.alloc, memory, places, self.kaslr, steps))
            }
            SoughtFile::Module(places, name) => tables_answer(read_module_types(
                self.alloc, memory, places, self.kaslr, name, steps,
            )),
        }
    }
}

/// What is sought in the memory of the dump in slot Dump, whose segments and notes were read.
///
/// # Errors
///
/// A word that can't be read; a fault of the symbols' tables or of the log; a failed call of the store; no memory was left.
pub fn read_file<S: Store>(
    alloc: Global,
    store: &mut S,
    noted: &Noted,
    sought: &SoughtFile<'_>,
) -> Result<Vec<u8>, Unread>
    requires table { IsTable noted.now.info.table }
    requires inside { AreInside (S.sizes store.old Dump) noted.now.core.segments }

    ensures wish { ReadsAs (λ v. v.items) (λ image. wished (sought_view sought.now) image noted.now.info.kaslr)
        (option_map (λ bytes. bare_image bytes noted.now.core.segments (by_info noted.now.info)) (content (S.files store.old) Dump (S.opened store.old Dump))) result }
    ensures files { S.files store.new ≡ S.files store.old }
    ensures cause { CountsUnread result (S.faults store.old) (S.faults store.new) }
{
    let file = WishedFile {
        alloc,
        sought,
        kaslr: noted.info.kaslr,
    };
    ask_dump(
        alloc,
        store,
        noted.core.segments(),
        Tail::Absent,
        paging_by(noted.info),
        &file,
    )?
}
