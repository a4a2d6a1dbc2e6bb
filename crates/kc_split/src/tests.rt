// A module's types behind those of the made kernel.
use crate::file::total;
use crate::{SplitStop, join};
use kc_btf::{BRule, Btf, BtfFault, Kind};
use kc_fixture::{btf_file, push_numbers};
use std::alloc::{AllocError, Global};
use std::test::Fail;

// A module's file: a struct `mitem` of 64 bytes with one member `mlink`, a `list_head`, which is the kernel's
// sixth type. Its names begin behind the kernel's strings.
fn module_file(alloc: Global, base: &Btf, strings: &[u8]) -> Result<Vec<u8>, AllocError> {
    let first = u32::try_from(base.strings().len()).unwrap_or(0);
    let second = first.wrapping_add(6);
    let words = format!(in alloc; "0x1eb9f 24 0 24 24 12\n{first} 0x4000001 64 {second} 6 0")?;
    let mut file = Vec::new(alloc);
    push_numbers(&mut file, &words)?;
    file.extend_from_slice(strings)?;
    Ok(file)
}

#[test]
fn a_module_goes_on_from_its_kernel(rt: HostRuntime) -> Result<(), Fail> {
    let base = Btf::read(rt.alloc(), btf_file(rt.alloc())?)?;
    let file = module_file(rt.alloc(), &base, b"mitem\0mlink\0")?;
    let types = join(rt.alloc(), &base, &file)?;
    assert_eq!(rt; (base.count(), types.count()), (32, 33));
    let item = types.ty(33);
    assert_eq!(rt; (item.kind, item.rest, item.vlen), (Kind::Struct, 64, 1));
    assert!(rt; (item.name as usize) < types.strings().len());
    assert_eq!(rt; types.name(item.name), b"mitem".as_slice());
    assert_eq!(rt; types.types().len(), base.types().len().saturating_add(24));
    Ok(())
}

#[test]
fn a_place_is_one_of_the_module(rt: HostRuntime) -> Result<(), Fail> {
    let base = Btf::read(rt.alloc(), btf_file(rt.alloc())?)?;
    let file = module_file(rt.alloc(), &base, b"mitem\0mlinkx")?;
    let fault = BtfFault {
        rule: BRule::B5,
        at: 48,
    };
    assert_eq!(rt;
        join(rt.alloc(), &base, &file).err(),
        Some(SplitStop::Fault(fault))
    );
    Ok(())
}

#[test]
fn lengths_together_have_a_limit(rt: HostRuntime) -> Result<(), Fail> {
    assert_eq!(rt; total(0xffff_ffff, 0).ok(), Some(0xffff_ffff));
    assert_eq!(rt; total(1, 0xffff_ffff).err(), Some(SplitStop::TooLong));
    Ok(())
}
