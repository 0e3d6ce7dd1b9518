//! The numbers of enclosures and distances, and widths below 0.
ghost use Rattle.std.specs.Prelude.{◌≡◌, neg_ℤ};
ghost use Rattle.rt_tech.specs.Tech.{width_of as width_in, IsMeasured};
ghost use Rattle.rt_template.specs.Between as spec;

use rt_tech::{Tech, width_of};

/// How far an enclosure of the table reaches, by its number from 0: database units in a source table, steps in a target table, and 0 where the
/// table has no such enclosure. (This project's own.)
pub fn enclose_number(tech: &Tech, q: u32) -> i64
    ensures { result ≡ spec.enclose_number tech.now q }
{
    match tech.encloses.as_slice().get(q as usize) {
        Some(enclose) => enclose.number,
        None => 0,
    }
}

/// How far a distance of the table keeps two masks apart, by its number from 0: database units in a source table, steps in a target table, and 0
/// where the table has no such distance. (This project's own.)
pub fn apart_number(tech: &Tech, q: u32) -> i64
    ensures { result ≡ spec.apart_number tech.now q }
{
    match tech.aparts.as_slice().get(q as usize) {
        Some(apart) => apart.number,
        None => 0,
    }
}

/// The width of a mask, by its number, below 0: steps in a target table. (This project's own.)
pub fn less_width(tech: &Tech, mask: u32) -> i64
    requires { IsMeasured tech.now }
    ensures { result ≡ neg_ℤ (width_in tech.now mask) }
{
    -width_of(tech, mask)
}
