// Where a path leads.
ghost use Rattle.std.specs.Prelude.{◌≡◌, ◌∷◌, [], ◌≤◌, drop, All};

use kc_word::Bits;

/// The pointers that lead to a place, by their byte offsets in their structs: the first from where the path
/// begins, and each further one from where the one before points.
#[derive(Clone, Copy, Debug, PartialEq, Eq)]
pub struct Hops {
    /// How many there are, at most 4. Offsets beyond are 0.
    pub count: u8,
    /// The first.
    pub a: u64,
    /// The second.
    pub b: u64,
    /// The third.
    pub c: u64,
    /// The fourth.
    pub d: u64,
    pub ghost few: { count ≤ 4 },
    pub ghost beyond: { All (λ offset. offset ≡ 0) (drop count (a ∷ b ∷ c ∷ d ∷ [])) },
}

impl Hops {
    ghost use Rattle.std.specs.Prelude.{take, option_map};
    ghost use Rattle.kc_layout.specs.HopList.{hop_list};
    ghost use Rattle.kc_layout.specs.Places.{with_hop};

    // One pointer more to follow.
    pub(crate) fn push(&self, byte: u64) -> Option<Hops>
        ensures { option_map hop_list result ≡ with_hop (hop_list self.now) byte }
    {
        let Hops {
            count,
            a,
            b,
            c,
            d: _,
        } = *self;
        match count {
            0 => Some(Hops::new(1, byte, 0, 0, 0)),
            1 => Some(Hops::new(2, a, byte, 0, 0)),
            2 => Some(Hops::new(3, a, b, byte, 0)),
            3 => Some(Hops::new(4, a, b, c, byte)),
            _ => None,
        }
    }

    // So many pointers to follow.
    pub(crate) fn new(count: u8, a: u64, b: u64, c: u64, d: u64) -> Hops
        requires few { count ≤ 4 }
        requires beyond { All (λ offset. offset ≡ 0) (drop count (a ∷ b ∷ c ∷ d ∷ [])) }
        ensures { hop_list result ≡ take count (a ∷ b ∷ c ∷ d ∷ []) }
    {
        Hops { count, a, b, c, d }
    }
}

// A place in a struct.
#[derive(Clone, Copy, Debug, PartialEq, Eq)]
pub(crate) struct Spot {
    // The first bit, counted from the first of the outermost struct.
    pub bit: u64,
    // The width of a bit-field in bits, or 0 for what is none.
    pub width: u8,
    // The number of the type.
    pub ty: u32,
}

// A spot behind pointers.
#[derive(Clone, Copy, Debug, PartialEq, Eq)]
pub(crate) struct Place {
    pub hops: Hops,
    pub spot: Spot,
}

// The place that a path led to, and how many steps it has.
#[derive(Clone, Copy, Debug, PartialEq, Eq)]
pub(crate) struct End {
    pub place: Place,
    pub step: u32,
}

// The bits of a number in its type.
#[derive(Clone, Copy, Debug, PartialEq, Eq)]
pub(crate) struct Number {
    // The first bit.
    pub offset: u8,
    // The width in bits.
    pub width: u64,
    // Whether it is in two's complement.
    pub signed: bool,
}

/// A byte that a path leads to.
#[derive(Clone, Copy, Debug, PartialEq, Eq)]
pub struct Located {
    /// The pointers to follow first.
    pub hops: Hops,
    /// The byte, counted from where the path begins or the last pointer points.
    pub byte: u64,
    /// The number of the type that lies there.
    pub ty: u32,
}

/// A number that a path leads to.
#[derive(Clone, Copy, Debug, PartialEq, Eq)]
pub struct Field {
    /// The pointers to follow first.
    pub hops: Hops,
    /// The bits, counted from where the path begins or the last pointer points.
    pub bits: Bits,
    /// The number of the type that lies there.
    pub ty: u32,
}
