//! Reading of keys out of a TOML document, with the first fault by the path of its key: the ground of rule tables and of
//! sizes files.
#![tactic(auto)]

/// Lists, entry by entry.
pub mod entries;
mod error;
/// The entries of a list by their names.
pub mod finding;
/// The entries of a list by their indexes.
pub mod indexes;
/// The values at keys, each of one type.
pub mod keys;
/// What is known of a list's names.
pub mod names;
/// Whole numbers, lengths and pairs.
pub mod numbers;
/// How lengths are written and kept.
pub mod scale;
/// Faults, and how they are answered.
pub mod stop;
/// Roles.
pub mod words;

pub use error::TableError;
