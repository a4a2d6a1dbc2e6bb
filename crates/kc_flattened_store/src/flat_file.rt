// A flattened file.
ghost use Rattle.std.specs.Prelude.{◌≡◌, ◌<◌, ◌^◌, All};
ghost use Rattle.kc_flattened.specs.Flat.{IsInside, size_of};

use kc_flattened::Record;

/// What is known of a flattened file.
#[derive(Drop)]
pub struct FlatFile {
    /// Its records.
    pub(crate) records: Vec<Record>,
    /// How many bytes the file has that it means.
    pub(crate) size: u64,
    /// How many bytes it has itself.
    pub(crate) file_size: u64,
    pub(crate) ghost inside: { All (IsInside file_size) records.items },
    pub(crate) ghost sized: { size ≡ size_of records.items },
    pub(crate) ghost fits: { size < 2 ^ 64 },
}
