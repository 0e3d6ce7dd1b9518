//! The offset of an element, and the steps of an array.
ghost use Rattle.std.specs.Prelude.{◌≡◌, ◌≢◌, ◌⊎◌, ℤ, pos, ◌-ℤ◌, ◌*ℤ◌, ◌≤ℤ◌, MatchBool};
ghost use Rattle.gds_flat.specs.Elements.{offset_of as offset_in, point_at, LeadTo, NoneLeads, AreSteps, HasSteps, StepFails};

use gds_stream::Element;
use rt_base::Point;

// The place of the element's first byte in the stream.
pub(crate) fn offset_of(element: &Element) -> u64
    ensures { result ≡ offset_in element.now }
{
    match element {
        Element::Boundary { offset, .. } => *offset,
        Element::Path { offset, .. } => *offset,
        Element::Sref { offset, .. } => *offset,
        Element::Aref { offset, .. } => *offset,
        Element::Label { offset, .. } => *offset,
        Element::BoxShape { offset, .. } => *offset,
    }
}

// Whether an array has less than one column or row, or a step that isn't whole.
pub(crate) fn step_fails(element: &Element) -> bool
    ensures { MatchBool result (StepFails element.now) (HasSteps element.now) }
{
    match element {
        Element::Aref {
            columns,
            rows,
            points,
            ..
        } => array_fails(columns, rows, points),
        _ => false,
    }
}

// The same of an array of so many columns and rows.
fn array_fails(columns: &i16, rows: &i16, points: &[Point; 3]) -> bool
    ensures { MatchBool result
        (NoneLeads columns.now (point_at points.now 0) (point_at points.now 1) ⊎ NoneLeads rows.now (point_at points.now 0) (point_at points.now 2))
        ((across : ℤ × ℤ) × (up : ℤ × ℤ) × AreSteps columns.now rows.now points.now across up) }
{
    let [origin, right, up] = points;
    if !has_steps(columns, origin, right) {
        return true;
    }
    !has_steps(rows, origin, up)
}

// Whether so many steps, at least one, lead from one point to the other.
fn has_steps(count: &i16, from: &Point, to: &Point) -> bool
    ensures { MatchBool result ((step : ℤ × ℤ) × LeadTo count.now step from.now to.now) (NoneLeads count.now from.now to.now) }
{
    if *count < 1 {
        return false;
    }
    if !divides(count, &from.x, &to.x) {
        return false;
    }
    divides(count, &from.y, &to.y)
}

// Whether the way from one coordinate to the other is so many whole steps.
fn divides(count: &i16, from: &i32, to: &i32) -> bool
    requires { pos 1 ≤ℤ count.now }
    ensures { MatchBool result ((step : ℤ) × (count.now *ℤ step ≡ to.now -ℤ from.now)) ((step : ℤ) → count.now *ℤ step ≢ to.now -ℤ from.now) }
{
    let way = i64::from(*to) - i64::from(*from);
    way.unsigned_abs() % u64::from(count.unsigned_abs()) == 0
}
