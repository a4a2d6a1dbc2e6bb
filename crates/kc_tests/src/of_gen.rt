// The made files, by what a second program makes.
use kc_gen::make;
use std::test::Fail;

// A number of items, the one that is hurt or a dash, and the length and sum of the dump, as bench/gen.py prints them.
const DUMPS: &str = "1 - 1060864 b2d66a5b26e5ed5f
1 7 1060864 b72994d77b5092ff
2 - 1064960 40588e991e45ebf0
5 - 1064960 e0f61e9e50816595
5 2 1064960 c046ed73353d6355
16 - 1064960 4f9fbb889ffbf865
17 - 1064960 ea1991f3dc7dbcdd
17 99 1064960 af89538a65e3621d
100 - 1069056 ad722054fffcb48f
257 - 1081344 79a2e51e631ea5ab
257 0 1081344 ef18225128ad050b
4096 - 1363968 07bc8a8fd840754d
4097 4096 1368064 b8d6528d9e6b37c1
65537 - 5955584 9149638c0c3fc07f
100000 - 8527872 67270cbf9837a98d
100000 50000 8527872 2d1c5d34a60103cd
100000 99999 8527872 8fe2f7e4f053600d";

// FNV-1a of 64 bits, over words of 8 bytes, the last one filled up with zeros.
fn sum(bytes: &[u8]) -> u64 {
    let mut sum: u64 = 0xcbf2_9ce4_8422_2325;
    for piece in bytes.chunks(8) {
        let mut word: u64 = 0;
        for byte in piece.iter().rev() {
            word = word.wrapping_mul(256) ^ u64::from(*byte);
        }
        sum = (sum ^ word).wrapping_mul(0x100_0000_01b3);
    }
    sum
}

#[test]
fn dumps(rt: HostRuntime) -> Result<(), Fail> {
    let mut count: usize = 0;
    for line in DUMPS.lines() {
        let (n, rest) = line.split_once(' ').ok_or("a number")?;
        let (hurt, wanted) = rest.split_once(' ').ok_or("a hurt item")?;
        let n: u32 = n.parse()?;
        assert!(rt; n >= 1 && n <= 100_000);
        let dump = make(rt.alloc(), n, hurt.parse().ok())?.dump;
        let bytes = dump.as_slice();
        let seen = format!(in rt.alloc(); "{} {:016x}", bytes.len(), sum(bytes))?;
        assert_eq!(rt; seen.as_str(), wanted, "{n} {hurt}");
        count = count.saturating_add(1);
    }
    assert_eq!(rt; count, 17);
    Ok(())
}

#[test]
fn texts(rt: HostRuntime) -> Result<(), Fail> {
    let files = make(rt.alloc(), 1, None)?;
    assert_eq!(rt; files.map.as_slice(), kc_fixture::MAP.as_bytes());
    let types = kc_fixture::btf_file(rt.alloc())?;
    assert_eq!(rt; files.btf.as_slice(), types.as_slice());
    assert_eq!(rt; sum(files.plan.as_slice()), 0x5ed2_3d3e_3ee8_d400);
    Ok(())
}
