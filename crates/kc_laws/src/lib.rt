//! Laws of the definitions of walks, for the crates whose proofs build on them. Each is stated in `specs/` and proved in the
//! crate of its definitions, but for those of `First`, which are proved where they stand.
#![tactic(auto)]
