//! Tests of the crates whose calls no program of cases shows: a file each, which is named for its crate. They stand together and above, since a crate with tests
//! of its own is proved twice.
#![tactic(auto)]

#[cfg(test)]
mod dumps;
#[cfg(test)]
mod of_cert;
#[cfg(test)]
mod of_entries;
#[cfg(test)]
mod of_gen;
#[cfg(test)]
mod of_given;
#[cfg(test)]
mod of_member;
#[cfg(test)]
mod of_memory;
#[cfg(test)]
mod of_outside;
#[cfg(test)]
mod of_patch;
#[cfg(test)]
mod of_phys;
#[cfg(test)]
mod of_pid_lists;
#[cfg(test)]
mod of_refs;
#[cfg(test)]
mod of_repair;
#[cfg(test)]
mod of_shape;
#[cfg(test)]
mod of_sight;
#[cfg(test)]
mod of_suspect;
#[cfg(test)]
mod of_word;
#[cfg(test)]
mod words;
