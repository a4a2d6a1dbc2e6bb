// The part of the names that a name is in.
ghost use Rattle.std.specs.Prelude.{◌≡◌};
ghost use Rattle.kc_syms.specs.Listed.{part_of};

// One of 256 parts, by the name's length and its last four bytes, so that each has about as many names.
#[tactic(auto, unfolding(crate::specs::Listed::part_of))]
pub fn part_of(name: &[u8]) -> u8
    ensures { result ≡ part_of name.now }
{
    let length = name.len();
    if length < 4 {
        return length as u8;
    }
    let bytes = 7 * usize::from(name[length - 1])
        + 31 * usize::from(name[length - 2])
        + 59 * usize::from(name[length - 3])
        + 101 * usize::from(name[length - 4]);
    ((length % 256 + bytes) % 256) as u8
}
