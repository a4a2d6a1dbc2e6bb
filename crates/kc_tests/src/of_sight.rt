// What words say, how far it goes on, and symbols of a map. What is read of a dump is tried by kc_why.
use kc_memory::{Origin, VWord};
use kc_sight::{ImageMap, ImageParts, Meaning, Seen, meaning_of, nearest, span_of};
use std::alloc::{AllocError, Global};
use std::test::Fail;

const MAP: &[u8] = b"0000000000000000 A fixed_percpu_data\n\
ffffffff81000000 T first\n\
ffffffff81000000 T second\n\
ffffffff81000040 t third\n\
ffffffff82000000 B _end\n";

// The bytes of "eth0: li".
const TEXT: u64 = 0x696c_203a_3068_7465;

#[test]
fn words_say_something(rt: HostRuntime) -> Result<(), Fail> {
    for (va, value, wanted) in [
        (0x1000, 0, Meaning::Zero),
        (0x1000, 0x1000, Meaning::Own),
        (0x1000, 0xdead_0000_0000_0100, Meaning::Unlisted),
        (0x1000, 0xdead_0000_0000_0122, Meaning::Unlisted),
        (0x1000, 0x6b6b_6b6b_6b6b_6b6b, Meaning::Pattern(0x6b)),
        (0x1000, 0x6c6c_6c6c_6c6c_6c6c, Meaning::Text),
        (0x1000, 0xa56b_6b6b_6b6b_6b6b, Meaning::Number),
        (0x1000, TEXT, Meaning::Text),
        (0x1000, 0xffff, Meaning::Small),
        (0x1000, 0x1_0000, Meaning::Number),
    ] {
        assert_eq!(rt; meaning_of(va, value), wanted, "{value:x}");
    }
    Ok(())
}

fn words(alloc: Global, values: &[u64]) -> Result<Vec<Seen>, AllocError> {
    let mut words = Vec::new(alloc);
    let mut va: u64 = 0x1000;
    for value in values {
        words.push(Ok(VWord {
            va,
            pa: va,
            off: Origin::File(va),
            value: *value,
        }))?;
        va = va.wrapping_add(8);
    }
    Ok(words)
}

#[test]
fn what_is_said_goes_on(rt: HostRuntime) -> Result<(), Fail> {
    let page = words(rt.alloc(), &[0, 1, TEXT, TEXT, TEXT, 0, 0])?;
    for (meaning, at, before, after) in [
        (Meaning::Text, 3, 1, 1),
        (Meaning::Text, 2, 0, 2),
        (Meaning::Zero, 5, 0, 1),
        (Meaning::Zero, 0, 0, 0),
        (Meaning::Small, 1, 0, 0),
    ] {
        let span = span_of(meaning, &page, at);
        assert_eq!(rt; (span.before, span.after), (before, after), "{at}");
    }
    Ok(())
}

#[test]
fn symbols_stand_below(rt: HostRuntime) -> Result<(), Fail> {
    let image = ImageMap {
        map: MAP,
        kaslr: 0x10,
        parts: ImageParts {
            text_end: None,
            end: Some(0xffff_ffff_8200_0010),
            init_start: None,
            init_end: None,
        },
    };
    for (address, wanted) in [
        (0xffff_ffff_8100_000f, None),
        (0xffff_ffff_8100_0010, Some(b"first".as_slice())),
        (0xffff_ffff_8100_004f, Some(b"first")),
        (0xffff_ffff_8200_000f, Some(b"third")),
        (0xffff_ffff_8200_0010, None),
        (0x1000, None),
    ] {
        let found = image.symbol(address).map(|symbol| symbol.name);
        assert_eq!(rt; found, wanted, "{address:x}");
    }
    let end = nearest(MAP, 0xffff_ffff_8000_0000, 0x10, u64::MAX).map(|symbol| symbol.address);
    assert_eq!(rt; end, Some(0xffff_ffff_8200_0010));
    Ok(())
}
