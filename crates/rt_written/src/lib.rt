//! What is written of a drawing, polygons round its rectangles and then its labels as texts, and what is read back of it: a layout of just these rectangles and labels.
#![tactic(auto)]

mod laws;

pub use laws::{
    corners_are_one_slab, drawing_is_flat, flat_is_the_drawing, flat_keeps_rules,
    layout_covers_alike, layout_keeps_rules, stream_reads_back, written_reads_back,
};
