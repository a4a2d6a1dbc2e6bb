// The stores, called through their trait.
ghost use Rattle.std.specs.Prelude.{◌≡◌, IsSome};

use kc_outside::{
    Bytes, ErrSink, Failed, FileStore, FourFiles, MemSink, MemStore, OutSink, Sink, Slot, Store,
    SureSink, SureStore,
};
use std::alloc::Global;
use std::io::{Seek, SeekFrom, Write};
use std::os::fd::AsRawFd;
use std::test::Fail;
use std::{fs, io};

// The size of the file in a slot, and its three bytes from a file offset on.
fn three_of<S: Store>(store: &mut S, slot: Slot, off: u64) -> Result<(u64, [u8; 3]), Failed>
    requires { IsSome (S.opened store.old slot) }
    ensures { S.opened store.new ≡ S.opened store.old }
{
    let mut part = [0; 3];
    let size = store.size(slot)?;
    if size >= 3 && off <= size - 3 {
        store.read_at(slot, off, &mut part)?;
    }
    Ok((size, part))
}

// The same of the file of a name, by way of one slot.
fn read_three<S: Store>(store: &mut S, name: &str, off: u64) -> Result<(u64, [u8; 3]), Failed>
    requires { S.may store.old Slot.Dump name.now }
{
    store.open_file(Slot::Dump, name)?;
    three_of(store, Slot::Dump, off)
}

#[test]
fn memory_reads_what_was_added(rt: HostRuntime) -> Result<(), Fail> {
    let mut store = MemStore::new(rt.alloc());
    store.add("dump", b"0123456789")?;
    store.add("map", b"other")?;
    assert_eq!(rt; read_three(&mut store, "dump", 7), Ok((10, *b"789")));
    assert_eq!(rt;
        read_three(&mut store, "none", 7),
        Err(Failed),
        "an unknown name"
    );
    assert_eq!(rt; store.calls(), 4);
    store.add("dump", b"abcd")?;
    assert_eq!(rt;
        read_three(&mut store, "dump", 0),
        Ok((4, *b"abc")),
        "replaced"
    );
    assert_eq!(rt; read_three(&mut store, "map", 2), Ok((5, *b"her")));
    Ok(())
}

// The call that failed of the three that read a file, or 0.
fn failed_call(alloc: Global, fails: u64) -> Result<u64, Fail> {
    let mut store = MemStore::new(alloc);
    store.add("dump", b"0123456789")?;
    store.fail(fails)?;
    let Ok(()) = store.open_file(Slot::Dump, "dump") else {
        return Ok(1);
    };
    let Ok(_) = store.size(Slot::Dump) else {
        return Ok(2);
    };
    let Ok(()) = store.read_at(Slot::Dump, 0, &mut []) else {
        return Ok(3);
    };
    Ok(0)
}

#[test]
fn memory_fails_at_the_listed_call(rt: HostRuntime) -> Result<(), Fail> {
    for (fails, want) in [(0, 0), (1, 1), (2, 2), (3, 3), (4, 0)] {
        assert_eq!(rt; failed_call(rt.alloc(), fails)?, want);
    }
    Ok(())
}

#[test]
fn files_are_read_by_parts(rt: HostRuntime) -> Result<(), Fail> {
    let name = "kc_outside-parts";
    fs::write(&rt, name, "0123456789")?;
    let mut store = FileStore::new(&rt);
    assert_eq!(rt; read_three(&mut store, name, 7), Ok((10, *b"789")));
    assert_eq!(rt; read_three(&mut store, name, 0), Ok((10, *b"012")));

    store.open_file(Slot::Map, name)?;
    let size = store.size(Slot::Map)?;
    assert_eq!(rt; size, 10);
    fs::write(&rt, name, "01234567")?;
    let mut part = [0; 3];
    assert!(rt;
        store.read_at(Slot::Map, 7, &mut part).is_err(),
        "shorter by now"
    );
    fs::remove_file(&rt, name)?;

    assert_eq!(rt;
        read_three(&mut store, name, 0),
        Err(Failed),
        "a missing name"
    );
    Ok(())
}

// The same of two files in two slots, and of the first one again, seven bytes on.
fn read_two<S: Store>(
    store: &mut S,
    first: &str,
    second: &str,
) -> Result<[(u64, [u8; 3]); 3], Failed>
    requires first { S.may store.old Slot.Dump first.now }
    requires second { S.may store.old Slot.Btf second.now }
{
    store.open_file(Slot::Dump, first)?;
    store.open_file(Slot::Btf, second)?;
    Ok([
        three_of(store, Slot::Dump, 0)?,
        three_of(store, Slot::Btf, 0)?,
        three_of(store, Slot::Dump, 7)?,
    ])
}

#[test]
fn files_stay_in_their_slots(rt: HostRuntime) -> Result<(), Fail> {
    let (plain, blank) = ("kc_outside-name", "kc_outside-name ");
    fs::write(&rt, plain, "0123456789")?;
    fs::write(&rt, blank, "abcdef")?;
    let mut store = FileStore::new(&rt);
    assert_eq!(rt;
        read_two(&mut store, plain, blank),
        Ok([(10, *b"012"), (6, *b"abc"), (10, *b"789")])
    );
    assert_eq!(rt;
        read_three(&mut store, blank, 1),
        Ok((6, *b"bcd")),
        "a second file in its slot"
    );
    fs::remove_file(&rt, plain)?;
    fs::remove_file(&rt, blank)?;
    Ok(())
}

#[test]
fn other_than_regular_files_are_refused(rt: HostRuntime) -> Result<(), Fail> {
    let (reader, _writer) = io::pipe(&rt)?;
    let pipe = format!(in rt.alloc(); "/proc/self/fd/{}", reader.as_raw_fd())?;
    let mut store = FileStore::new(&rt);
    for name in [".", "/dev/null", pipe.as_str()] {
        assert_eq!(rt; store.open_file(Slot::Dump, name), Err(Failed), "{name}");
    }
    Ok(())
}

#[test]
fn files_are_read_past_four_gib(rt: HostRuntime) -> Result<(), Fail> {
    let name = "kc_outside-long";
    let far = 1 << 33;
    let mut file = fs::create(&rt, name)?;
    file.seek(SeekFrom::Start(far))?;
    file.write_all(b"end")?;
    let read = read_three(&mut FileStore::new(&rt), name, far);
    fs::remove_file(&rt, name)?;
    assert_eq!(rt; read, Ok((far + 3, *b"end")));
    Ok(())
}

// A file of these bytes.
fn file(alloc: Global, bytes: &[u8]) -> Result<Bytes, Fail> {
    Ok(Bytes::new(Vec::from_slice(alloc, bytes)?))
}

#[test]
fn sure_ones_never_fail(rt: HostRuntime) -> Result<(), Fail> {
    let mut store = SureStore::new(FourFiles {
        dump: file(rt.alloc(), b"0123456789")?,
        btf: file(rt.alloc(), b"abcdef")?,
        map: file(rt.alloc(), b"map")?,
        plan: file(rt.alloc(), b"")?,
    });
    assert_eq!(rt;
        read_two(&mut store, "any name", ""),
        Ok([(10, *b"012"), (6, *b"abc"), (10, *b"789")])
    );
    for (slot, size) in [
        (Slot::Map, 3),
        (Slot::Plan, 0),
        (Slot::Report, 0),
        (Slot::Module, 0),
    ] {
        store.open_file(slot, "any name")?;
        assert_eq!(rt; store.size(slot), Ok(size), "{slot:?}");
    }
    let mut sink = SureSink::new();
    assert_eq!(rt; sink.put(b"hello"), Ok(5));
    Ok(())
}

#[test]
fn takes_up_to_the_limit(rt: HostRuntime) -> Result<(), Fail> {
    for (limit, first, second, kept) in [
        (0, Err(Failed), Err(Failed), ""),
        (1, Ok(1), Err(Failed), "h"),
        (10, Ok(5), Ok(5), "hellohello"),
    ] {
        let mut sink = MemSink::new(rt.alloc(), limit)?;
        assert_eq!(rt; sink.put(b"hello"), first, "first of {limit}");
        assert_eq!(rt; sink.put(b"hello"), second, "second of {limit}");
        assert_eq!(rt; sink.put(b"hello"), Err(Failed), "third of {limit}");
        assert_eq!(rt; sink.bytes(), kept.as_bytes(), "kept of {limit}");
    }
    Ok(())
}

// A writer that takes so many bytes, or fails, and whose flush may fail.
#[derive(Drop)]
struct Fake {
    takes: Option<usize>,
    flushes: bool,
}

impl Write for Fake {
    fn write(&mut self, buf: &[u8]) -> io::Result<usize> {
        match self.takes {
            Some(takes) => Ok(takes.min(buf.len())),
            None => Err(io::Error::from(io::ErrorKind::BrokenPipe)),
        }
    }

    fn flush(&mut self) -> io::Result<()> {
        if self.flushes {
            Ok(())
        } else {
            Err(io::Error::from(io::ErrorKind::BrokenPipe))
        }
    }
}

#[test]
fn out_sink_writes_and_flushes(rt: HostRuntime) -> Result<(), Fail> {
    for (takes, flushes, want) in [
        (Some(9), true, Ok(5)),
        (Some(3), true, Ok(3)),
        (Some(0), true, Err(Failed)),
        (Some(3), false, Err(Failed)),
        (None, true, Err(Failed)),
    ] {
        let mut sink = OutSink::new(Fake { takes, flushes });
        assert_eq!(rt; sink.put(b"hello"), want, "{takes:?} {flushes}");
    }
    let mut sink = OutSink::new(rt.stdout());
    assert_eq!(rt; sink.put(b"out\n"), Ok(4));
    Ok(())
}

#[test]
fn err_sink_writes(rt: HostRuntime) -> Result<(), Fail> {
    let mut sink = ErrSink::new(rt.stderr());
    assert_eq!(rt; sink.put(b"err\n"), Ok(4));
    Ok(())
}
