//! Cuts and labels: the pieces of a cut are its strips; size, enclosure and distance are kept in the drawing, also of those pieces alone that lie
//! in one lower mask; a label means the same piece. It knows no table, no row and no layout, and has no code.
#![tactic(auto)]

mod laws;

pub use laws::{
    cut_keeps_distance, cut_keeps_enclosure, cut_keeps_lower_mask, cut_keeps_size,
    cut_pieces_are_strips, hosts_keep_enclosure, label_keeps_piece, masks_keep_distance,
    scaling_keeps_cuts, two_cuts_are_kept,
};
