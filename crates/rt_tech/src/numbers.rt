//! The least widths and spaces of the masks of a table.
ghost use Rattle.std.specs.Prelude.{◌≡◌};
ghost use Rattle.rt_tech.specs.Tech.{width_of as width_in, space_of as space_in};

use crate::table::Tech;

/// The least width of the shapes of a mask, by its number: database units in a source table, steps in a target
/// table, and 1 where the table has no such mask.
pub fn width_of(tech: &Tech, mask: u32) -> i64
    ensures { result ≡ width_in tech.now mask }
{
    match tech.masks.as_slice().get(mask as usize) {
        Some(mask) => mask.width,
        None => 1,
    }
}

/// The least space between the shapes of a mask, by its number: database units in a source table, steps in a
/// target table, and 1 where the table has no such mask.
pub fn space_of(tech: &Tech, mask: u32) -> i64
    ensures { result ≡ space_in tech.now mask }
{
    match tech.masks.as_slice().get(mask as usize) {
        Some(mask) => mask.space,
        None => 1,
    }
}
