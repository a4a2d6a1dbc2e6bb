// Numbers that are read over a few words. Further cases stand in files, which the program try_walks tries.
ghost use Rattle.std.specs.Prelude.{◌≡◌, ◌<◌, None, []};
ghost use Rattle.std.proofs.Common.{lit≤};

use kc_memory::{Miss, Origin, Rule, Space, Stop, VWord, read_bits};
use kc_word::{Bits, Steps};
use std::marker::Brand;
use std::sync::ledger::{Blank, Ledger};
use std::test::Fail;

// A memory of two words, at 1000 and at 1008.
#[derive(Drop)]
struct Words;

impl Space for Words {
    ghost image = { λ w. None };

    ghost files = { λ w. None };

    ghost faults = { λ w. 0 };

    ghost through = { λ w. [] };

    ghost most = { λ w. 1 };

    ghost most_some = { λ w. lit≤ tt };

    ghost most_small = { λ w. lit≤ tt };

    fn word<L: Ledger>(&mut self, va: u64, _: &mut Steps<L>) -> Result<VWord, Stop> {
        let value = match va {
            1000 => 0x0000_0007_0000_0007,
            1008 => 0x8000_0000_0008_0005,
            _ => {
                return Err(Stop::Miss(Miss {
                    va,
                    rule: Rule::M6,
                    level: 0,
                    pa: 0,
                    entry: None,
                }));
            }
        };
        Ok(VWord {
            va,
            pa: 0x1000,
            off: Origin::File(0x2000),
            value,
        })
    }
}

// A number, or the address of the word that isn't there.
type Number = Result<i128, Option<u64>>;

fn missing(stop: Stop) -> Option<u64> {
    match stop {
        Stop::Miss(miss) => Some(miss.va),
        Stop::Fault => None,
    }
}

fn read<L: Ledger>(at: u64, bits: Bits, blank: Blank) -> Number
    requires name { blank.name ≡ L.name }
    requires parts { blank.parts ≡ L.parts }
    requires some { 0 < L.parts }
{
    let mut steps = Steps::<L>::new(blank);
    match read_bits(&mut Words, at, bits, &mut steps) {
        Ok(scalar) => Ok(scalar.value),
        Err(stop) => Err(missing(stop)),
    }
}

fn bits(bit: u16, width: u8, signed: bool) -> Bits {
    Bits {
        bit: u64::from(bit),
        width: width.clamp(1, 64),
        signed,
    }
}

// An address, the first bit from there on, how many, whether they have a sign, and the number: in one word, in two, and
// where the second one isn't there, or the first.
const CASES: [(u64, u16, u8, bool, Number); 6] = [
    (1000, 32, 3, false, Ok(7)),
    (1000, 32, 3, true, Ok(-1)),
    (1000, 63, 2, true, Ok(-2)),
    (1004, 0, 64, false, Ok(0x8_0005_0000_0007)),
    (1008, 63, 2, false, Err(Some(1016))),
    (1016, 0, 1, false, Err(Some(1016))),
];

#[test]
fn bits_are_read_at_the_edges_of_words(rt: HostRuntime) -> Result<(), Fail> {
    for (at, bit, width, signed, wanted) in CASES {
        let found = read::<Brand>(at, bits(bit, width, signed), Blank::new(1));
        assert_eq!(rt; found, wanted, "{at} {bit} {width}");
    }
    Ok(())
}
