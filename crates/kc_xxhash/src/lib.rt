//! XXH64 (xxHash, doc/xxhash_spec.md), of which the checksum of a Zstandard frame is a part (RFC 8878, 3.1.1).
#![tactic(auto)]

mod xxh64;

pub use xxh64::checksum_of;
