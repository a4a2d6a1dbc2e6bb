// Members of the types of a small kernel.
use kc_btf::Btf;
use kc_fixture::{Types, btf_with_pids};
use kc_layout::{find_type, push_member};
use std::test::Fail;

#[test]
fn bytes_lie_in_members(rt: HostRuntime) -> Result<(), Fail> {
    let btf = Btf::read(rt.alloc(), btf_with_pids(rt.alloc())?)?;
    for (name, byte, wanted) in [
        ("slab", 24, "slab_list.prev"),
        ("slab", 31, "slab_list.prev"),
        ("slab", 44, "counters"),
        ("xa_node", 50, "slots[3]"),
        ("item", 36, "small"),
        ("item", 37, ""),
        ("pid", 35, "numbers[1].nr"),
        ("pid", 36, "numbers[1]"),
        ("slab", 1000, ""),
    ] {
        let ty = find_type(&btf, name.as_bytes()).ok_or("no type")?;
        let mut text = Vec::new(rt.alloc());
        push_member(&mut text, &btf, ty, byte)?;
        assert_eq!(rt; text.as_slice(), wanted.as_bytes(), "{name} {byte}");
    }
    Ok(())
}

#[test]
fn names_are_printed_as_visible_ascii(rt: HostRuntime) -> Result<(), Fail> {
    let mut types = Types::new(rt.alloc())?;
    types.add("1 odd = struct 1\n  a\tb = 2 0\n2 unsigned char = int 1 8")?;
    let btf = Btf::read(rt.alloc(), types.file(rt.alloc())?)?;
    let ty = find_type(&btf, b"odd").ok_or("no type")?;
    let mut text = Vec::new(rt.alloc());
    push_member(&mut text, &btf, ty, 0)?;
    assert_eq!(rt; text.as_slice(), b"a?b".as_slice());
    Ok(())
}
