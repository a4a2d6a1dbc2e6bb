// Numbers that are read and written as bytes and texts.
use kc_word::{get_u16, get_u32, get_u64, hex16, read_dec, read_hex};

#[test]
fn numbers_are_read_where_the_bytes_reach(rt: HostRuntime) {
    let bytes = [1, 2, 3, 4, 5, 6, 7, 8, 0xff];
    assert_eq!(rt; get_u16(&bytes, 0), Some(0x0201));
    assert_eq!(rt; get_u16(&bytes, 7), Some(0xff08));
    assert_eq!(rt; get_u16(&bytes, 8), None);
    assert_eq!(rt; get_u32(&bytes, 5), Some(0xff08_0706));
    assert_eq!(rt; get_u32(&bytes, 6), None);
    assert_eq!(rt; get_u64(&bytes, 1), Some(0xff08_0706_0504_0302));
    assert_eq!(rt; get_u64(&bytes, 2), None);
    assert_eq!(rt; get_u64(&bytes, usize::MAX), None);
}

#[test]
fn hex_is_printed_and_read(rt: HostRuntime) {
    assert_eq!(rt; hex16(0x0123_4567_89ab_cdef), *b"0123456789abcdef");
    assert_eq!(rt; hex16(u64::MAX), *b"ffffffffffffffff");
    let rows: [(&[u8], Option<u64>); 11] = [
        (b"0", Some(0)),
        (b"0x10", Some(16)),
        (b"00000000000000fF", Some(255)),
        (b"0xFFFFFFFFFFFFFFFF", Some(u64::MAX)),
        (b"00000000000000000", None),
        (b"", None),
        (b"0x", None),
        (b"0X1", None),
        (b"-1", None),
        (b"1g", None),
        (b"0x0x1", None),
    ];
    for (text, wanted) in rows {
        assert_eq!(rt; read_hex(text), wanted);
    }
}

#[test]
fn reads_decimal(rt: HostRuntime) {
    let rows: [(&[u8], Option<i64>); 13] = [
        (b"0", Some(0)),
        (b"-0", Some(0)),
        (b"04096", Some(4096)),
        (b"-12", Some(-12)),
        (b"9223372036854775807", Some(i64::MAX)),
        (b"9223372036854775808", None),
        (b"-9223372036854775808", Some(i64::MIN)),
        (b"-9223372036854775809", None),
        (b"00000000000000000001", None),
        (b"", None),
        (b"-", None),
        (b"+1", None),
        (b"1 ", None),
    ];
    for (text, wanted) in rows {
        assert_eq!(rt; read_dec(text), wanted);
    }
}
