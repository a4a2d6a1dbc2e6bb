// What is known of the file in a slot.
ghost use Rattle.std.specs.Prelude.{◌<◌, ◌^◌};

// A size of a file, in bytes.
#[derive(Clone, Copy)]
pub(crate) struct Size {
    pub(crate) bytes: u64,
    ghost fits: { bytes < 2 ^ 64 },
}

// What a slot holds: nothing, or a file whose size is learnt or isn't.
#[derive(Drop)]
pub(crate) enum Seen<F> {
    Nothing,
    Opened(F),
    Sized(F, Size),
}

impl<F> Seen<F> {
    ghost use Rattle.std.specs.Prelude.{◌≡◌, Some, IsSome};
    ghost use Rattle.kc_outside.specs.Seen.{seen_file, seen_size};

    // The same file, of which the size is now learnt.
    pub(crate) fn with_size(self, bytes: u64) -> Seen<F>
        ensures file { seen_file result ≡ seen_file self }
        ensures size { IsSome (seen_file self) → seen_size result ≡ Some bytes }
    {
        match self {
            Seen::Nothing => Seen::Nothing,
            Seen::Opened(file) | Seen::Sized(file, _) => Seen::Sized(file, Size { bytes }),
        }
    }
}
