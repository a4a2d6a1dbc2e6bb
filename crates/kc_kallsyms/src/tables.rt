// The tables beside the names.
ghost use Rattle.std.specs.Prelude.{◌≡◌, vec_len};

/// The tables beside the names.
#[derive(Debug, Drop)]
pub struct Tables {
    /// How many symbols there are.
    pub count: u32,
    /// The address that offsets count from.
    pub base: u64,
    /// The tokens by their numbers.
    pub tokens: Vec<Vec<u8>>,
    pub ghost all: { vec_len tokens ≡ 256 },
}
