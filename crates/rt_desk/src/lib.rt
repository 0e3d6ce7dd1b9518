//! The outside: files, standard output and their faults, behind the trait `Desk`; a desk in memory and
//! a desk over the files and the standard output of the program.
#![tactic(auto)]

mod in_memory;
mod on_disk;
mod outside;

pub use in_memory::{MemoryDesk, names_differ};
pub use on_disk::{FileDesk, RefusedStore};
pub use outside::{Desk, DeskError};
