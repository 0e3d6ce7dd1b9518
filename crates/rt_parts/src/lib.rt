//! Strips that channels cut into parts: two cells that aren't cut are of one piece exactly where their parts are linked, so a source and a
//! drawing that are cut alike have the same pieces, and cuts beside channels stay in theirs. It knows no table and no row, and has no code.
#![tactic(auto)]

mod laws;

pub use laws::{cuts_stay_in_parts, parts_keep_pieces, two_strips_are_cut};
