//! The strips of a layout: rectangles that cover each mask's cells once, whose rows are whole runs; where one stands on another, and
//! which is climbed from which.
#![tactic(auto)]

mod channels;
mod climbing;
mod contact;
mod laws;
mod layers;
mod listing;
mod meeting;
mod one_mask;
mod tally;

pub use climbing::Climbs;
pub use contact::{Seam, seams, touching};
pub use laws::{channels_are_pieces, one_list_of_strips, strips_cover};
pub use layers::strips_of;
pub use listing::{Strip, StripError, Strips};
pub use one_mask::strips_of_rects;
