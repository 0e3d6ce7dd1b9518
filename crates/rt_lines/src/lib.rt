//! The lines that the program says: one for each status that has one, said on a desk in pieces that take no memory.
#![tactic(auto)]

mod pieces;
mod request;
mod source;
mod tables;
mod words;

pub use pieces::{Piece, say_pieces};
pub use request::{say_infeasible, say_not_built, say_unfetched, say_usage};
pub use source::{
    BrokenRule, say_array_step, say_bad_stream, say_coordinate_range, say_cyclic,
    say_no_such_structure, say_source_rule, say_source_shape, say_too_deep, say_too_many,
    say_unmapped_layer, say_unsupported,
};
pub use tables::{
    say_no_axis, say_sizes_fault, say_sizes_not_toml, say_table_fault, say_table_not_toml,
    say_tables_differ,
};
