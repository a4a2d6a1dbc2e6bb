//! kfiles: the map, the types, the log, the modules and the note of a kernel out of the memory of its dump.
#![tactic(auto)]

ghost use Rattle.std.specs.Prelude.{ℕ, List};
ghost use Rattle.kc_outside.specs.declared.store.Slot.{Slot};

use kc_any_dump::{any_dump, end_with_cause};
use kc_command::Status;
use kc_files::kfiles;
use kc_outside::{ErrSink, FileStore, OutSink, Sink, Store};
use std::alloc::Global;
use std::env::{self, Env};
use std::io;
use std::process::ExitCode;

// The words after the program's name. One that isn't UTF-8 makes them no command, as no words do.
fn read_words(rt: &(impl Env + AllocGlobal)) -> Result<Vec<String>, Status> {
    let mut words = Vec::new(rt.alloc());
    match env::args(rt) {
        Ok(args) => {
            for word in args.skip(1) {
                if words.push(word).is_err() {
                    return Err(Status::OutOfMemory);
                }
            }
            Ok(words)
        }
        Err(error) if error.kind() == io::ErrorKind::OutOfMemory => Err(Status::OutOfMemory),
        Err(_) => Ok(words),
    }
}

// Runs the program over dumps of any form.
fn run<S: Store + Drop, O: Sink, E: Sink>(
    alloc: Global,
    words: &[String],
    store: S,
    out: &mut O,
    err: &mut E,
) -> Status
    requires { (slot : Slot) (name : List ℕ) → S.may store slot name }
{
    let Ok(mut dump) = any_dump(alloc, store) else {
        return Status::OutOfMemory;
    };
    let status = kfiles(alloc, words, &mut dump, out, err);
    end_with_cause(alloc, status, &dump, err)
}

fn main(rt: HostRuntime) -> ExitCode {
    let mut out = OutSink::new(rt.stdout());
    let mut err = ErrSink::new(rt.stderr());
    let status = match read_words(&rt) {
        Ok(words) => run(rt.alloc(), &words, FileStore::new(&rt), &mut out, &mut err),
        Err(status) => status,
    };
    ExitCode::from(u8::from(status))
}
