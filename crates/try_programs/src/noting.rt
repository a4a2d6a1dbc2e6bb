// A store and a sink that write down which calls are made of them.
ghost use Rattle.std.specs.Prelude.{◌≡◌};

use kc_outside::{Failed, Sink, Slot, Store};
use std::alloc::{AllocError, Global};

/// A store over a store, and a line for each call of it: what is asked, of which slot, and the name, or the file offset and the length.
#[derive(Drop)]
pub struct Noting<S> {
    alloc: Global,
    store: S,
    /// The lines, short of those for which there was no memory.
    pub lines: Vec<String>,
}

fn slot_name(slot: Slot) -> &'static str {
    match slot {
        Slot::Dump => "dump",
        Slot::Btf => "btf",
        Slot::Map => "map",
        Slot::Plan => "plan",
        Slot::Report => "report",
        Slot::Module => "module",
    }
}

fn open_line(alloc: Global, slot: Slot, name: &str) -> Result<String, AllocError> {
    format!(in alloc; "open {} {}", slot_name(slot), name)
}

fn size_line(alloc: Global, slot: Slot) -> Result<String, AllocError> {
    format!(in alloc; "size {}", slot_name(slot))
}

fn read_line(alloc: Global, slot: Slot, off: u64, length: usize) -> Result<String, AllocError> {
    format!(in alloc; "read {} {} {}", slot_name(slot), off, length)
}

impl<S: Store + Drop> Noting<S> {
    /// A store over this one, of which no call was made.
    pub fn new(alloc: Global, store: S) -> Noting<S>
        ensures { result.store ≡ store }
    {
        Noting {
            alloc,
            store,
            lines: Vec::new(alloc),
        }
    }

    // Writes a line down, if there is memory for it.
    fn note(&mut self, line: Result<String, AllocError>)
        ensures { self.new.store ≡ self.old.store }
    {
        if let Ok(line) = line {
            let _ = self.lines.push(line);
        }
    }
}

impl<S: Store + Drop> Store for Noting<S> {
    ghost may = { λ self. S.may self.store };

    ghost files = { λ self. S.files self.store };

    ghost opened = { λ self. S.opened self.store };

    ghost sizes = { λ self. S.sizes self.store };

    ghost faults = { λ self. S.faults self.store };

    ghost asked = { λ self. S.asked self.store };

    ghost size_opened = { λ self. S.size_opened self.store };

    ghost size_fits = { λ self. S.size_fits self.store };

    ghost size_length = { λ self. S.size_length self.store };

    fn open_file(&mut self, slot: Slot, name: &str) -> Result<(), Failed> {
        self.note(open_line(self.alloc, slot, name));
        self.store.open_file(slot, name)
    }

    fn size(&mut self, slot: Slot) -> Result<u64, Failed> {
        self.note(size_line(self.alloc, slot));
        self.store.size(slot)
    }

    fn read_at(&mut self, slot: Slot, off: u64, buf: &mut [u8]) -> Result<(), Failed> {
        self.note(read_line(self.alloc, slot, off, buf.len()));
        self.store.read_at(slot, off, buf)
    }
}

/// A sink over a sink, and a line for each call of it: the sink's name, and how many bytes are put.
#[derive(Drop)]
pub struct NotingSink<O> {
    alloc: Global,
    name: &'static str,
    sink: O,
    /// The lines, short of those for which there was no memory.
    pub lines: Vec<String>,
}

fn put_line(alloc: Global, name: &str, length: usize) -> Result<String, AllocError> {
    format!(in alloc; "put {name} {length}")
}

impl<O: Sink + Drop> NotingSink<O> {
    /// A sink over this one, of which no call was made.
    pub fn new(alloc: Global, name: &'static str, sink: O) -> NotingSink<O> {
        NotingSink {
            alloc,
            name,
            sink,
            lines: Vec::new(alloc),
        }
    }

    /// The sink, and the lines.
    pub fn parts(self) -> (O, Vec<String>) {
        (self.sink, self.lines)
    }
}

impl<O: Sink + Drop> Sink for NotingSink<O> {
    ghost taken = { λ self. O.taken self.sink };

    ghost faults = { λ self. O.faults self.sink };

    ghost asked = { λ self. O.asked self.sink };

    fn put(&mut self, piece: &[u8]) -> Result<usize, Failed> {
        if let Ok(line) = put_line(self.alloc, self.name, piece.len()) {
            let _ = self.lines.push(line);
        }
        self.sink.put(piece)
    }
}
