// The files of a store that never fails.
ghost use Rattle.std.specs.Prelude.{◌≡◌};
ghost use Rattle.kc_outside.specs.SureStore.{bytes_of};

/// The bytes of a file in memory.
#[derive(Drop)]
pub struct Bytes {
    held: Vec<u8>,
}

impl Bytes {
    /// These bytes. It takes no memory.
    pub fn new(bytes: Vec<u8>) -> Bytes
        ensures { bytes_of result ≡ bytes.items }
    {
        Bytes { held: bytes }
    }

    /// The bytes, in order.
    pub fn as_slice(&self) -> &[u8]
        ensures { result.now ≡ bytes_of self.now }
    {
        self.held.as_slice()
    }
}

/// The files of the first four slots.
#[derive(Drop)]
pub struct FourFiles {
    /// The dump.
    pub dump: Bytes,
    /// The kernel's types.
    pub btf: Bytes,
    /// The kernel's symbol map.
    pub map: Bytes,
    /// The plan of an audit.
    pub plan: Bytes,
}

// What a slot holds: nothing, or its file, of which the size is learnt or isn't.
#[derive(Clone, Copy)]
pub(crate) enum SureSlot {
    Nothing,
    Opened,
    Learnt,
}
