//! The shapes of cuts and labels that a sound source has: which lower mask each cut of a layout lies in, or the first shape that the layout hasn't, by its
//! strips; the laws of them.
#![tactic(auto)]

mod bare;
mod bent;
mod boxes;
mod cuts;
mod kinds;
mod labels;
mod laws;
mod sides;
mod sound;

pub use cuts::cut_shapes;
pub use labels::check_labels;
pub use laws::{first_shape_is_unsound, one_rectangle_around};
pub use sound::sound_shapes;
