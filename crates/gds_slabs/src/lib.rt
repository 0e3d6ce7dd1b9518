//! What a polygon and a path of a stream cover, the rectangles that they become, and where a reference moves these.
#![tactic(auto)]

mod areas;
mod around;
mod laws;
mod moves;
mod path;
mod pen;
mod polygon;
mod step;
mod sweep;
mod toggles;

pub use areas::{is_path_width, path_count, path_rects};
pub use around::rectangle_around;
pub use laws::{
    moved_cells_are_apart, moved_corners_are_corners, moved_rect_has_a_cell,
    moved_rect_holds_moved_cells, path_areas_are_listed, slabs_are_apart, slabs_are_one,
    slabs_are_there, slabs_cover_what_is_inside,
};
pub use moves::{moved_point, moved_rect};
pub use path::PathEnd;
pub use polygon::{is_closed, is_slanted};
pub use step::Step;
pub use sweep::{slab_count, slabs};
