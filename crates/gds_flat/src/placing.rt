//! What references place: items moved by each of their steps.
ghost use Rattle.std.specs.Prelude.{◌≡◌, ◌≢◌, ◌++◌, [], ◌∷◌, ◌<◌, ◌^◌, ℤ, pos, neg_ℤ, ◌+ℤ◌, ◌-ℤ◌, ◌*ℤ◌, ◌≤ℤ◌, None, map, All, IfOk, OnOk};
ghost use Rattle.gds_records.specs.Reals.{IsQuarterTurns};
ghost use Rattle.gds_slabs.specs.Steps.{ShiftsWithin};
ghost use Rattle.gds_flat.specs.Reach.{target as target_of};
ghost use Rattle.gds_flat.specs.Elements.{PlaceLacks, LeadTo, IsWhole, AreSteps};
ghost use Rattle.gds_flat.specs.Placing.{StepsOf, AreStepsTo, AreArraySteps};
ghost use Rattle.gds_flat.specs.Items.{piece_moved, drawing_moved, all_moved};
ghost use Rattle.gds_flat.specs.Drawn.{piece_of, drawing_of, pieces_in};
ghost use Rattle.gds_flat.specs.Building.{SpotWithin, PieceWithin, DrawingWithin, Appends, AreMovedBy, most_shift, most_reach, step_at, row_steps, all_steps, HasTurn, AreStrides};

use crate::error::Odd;
use crate::item::{Drawn, Item};
use gds_records::quarter_turns;
use gds_slabs::{Step, moved_point, moved_rect};
use gds_stream::{Element, Place};
use rt_base::{List, Orient, OutOfMemory, Point};
use std::alloc::Global;

// Appends what a reference places: the items of what it names, moved by each of its steps.
pub(crate) fn push_placed(
    alloc: Global,
    items: &mut List<Item>,
    element: &Element,
    inner: &[Item],
) -> Result<(), OutOfMemory>
    requires whole { IsWhole element.now }
    requires reference { target_of element.now ≢ None }
    requires near { All (PieceWithin most_reach) (pieces_in inner.now) }
    ensures { OnOk result (Appends (AreMovedBy (StepsOf element.now) (pieces_in inner.now)) items.old items.new) }
{
    match element {
        Element::Sref { place, at, .. } => push_once(alloc, items, place, at, inner),
        Element::Aref {
            place,
            columns,
            rows,
            points,
            ..
        } => push_array(alloc, items, place, columns, rows, points, inner),
        _ => Ok(()),
    }
}

// Appends what a reference places once.
fn push_once(
    alloc: Global,
    items: &mut List<Item>,
    place: &Place,
    at: &Point,
    inner: &[Item],
) -> Result<(), OutOfMemory>
    requires angle { PlaceLacks place.now Odd.Angle }
    requires near { All (PieceWithin most_reach) (pieces_in inner.now) }
    ensures { OnOk result (Appends (AreMovedBy (AreStepsTo place.now ((at.now.x, at.now.y) ∷ [])) (pieces_in inner.now)) items.old items.new) }
{
    let step = step_to(orient_of(place), at);
    push_moved(alloc, items, &step, inner)
}

// The step to a point.
fn step_to(orient: Orient, at: &Point) -> Step
    ensures value { result ≡ record { orient = orient; dx = at.now.x; dy = at.now.y } }
    ensures small { ShiftsWithin most_shift result }
{
    Step {
        orient,
        dx: i64::from(at.x),
        dy: i64::from(at.y),
    }
}

// How a place turns.
fn orient_of(place: &Place) -> Orient
    requires { PlaceLacks place.now Odd.Angle }
    ensures { HasTurn place.now result }
{
    Orient {
        reflect: place.flags >= 0x8000,
        quarters: quarters_of(place),
    }
}

// The quarters by which a place turns.
fn quarters_of(place: &Place) -> u8
    requires { PlaceLacks place.now Odd.Angle }
    ensures below { result < 4 }
    ensures turns { IsQuarterTurns place.now.angle result }
{
    match quarter_turns(place.angle) {
        Some(quarters) => quarters,
        None => unreachable!(),
    }
}

// What an array is stepped by: a turn, the first point, and the ways to the next column and to the next row.
#[derive(Drop)]
struct Strides {
    orient: Orient,
    origin: Point,
    across: (i64, i64),
    up: (i64, i64),
    ghost near_across: { SpotWithin (pos (2 ^ 32)) across },
    ghost near_up: { SpotWithin (pos (2 ^ 32)) up },
}

// Appends what an array places, row by row and in each row column by column.
fn push_array(
    alloc: Global,
    items: &mut List<Item>,
    place: &Place,
    columns: &i16,
    rows: &i16,
    points: &[Point; 3],
    inner: &[Item],
) -> Result<(), OutOfMemory>
    requires angle { PlaceLacks place.now Odd.Angle }
    requires steps { (across : ℤ × ℤ) × (up : ℤ × ℤ) × AreSteps columns.now rows.now points.now across up }
    requires near { All (PieceWithin most_reach) (pieces_in inner.now) }
    ensures { OnOk result (Appends (AreMovedBy (AreArraySteps place.now columns.now rows.now points.now) (pieces_in inner.now)) items.old items.new) }
{
    let strides = strides_of(place, columns, rows, points);
    push_rows(
        alloc,
        items,
        &strides,
        (columns.unsigned_abs(), rows.unsigned_abs()),
        inner,
    )
}

// What an array is stepped by.
fn strides_of(place: &Place, columns: &i16, rows: &i16, points: &[Point; 3]) -> Strides
    requires angle { PlaceLacks place.now Odd.Angle }
    requires steps { (across : ℤ × ℤ) × (up : ℤ × ℤ) × AreSteps columns.now rows.now points.now across up }
    ensures { AreStrides place.now columns.now rows.now points.now result.orient result.origin result.across result.up }
{
    let [origin, right, up] = points;
    Strides {
        orient: orient_of(place),
        origin: *origin,
        across: stride(columns, origin, right),
        up: stride(rows, origin, up),
    }
}

// The one of so many equal steps from one point to the other.
fn stride(count: &i16, from: &Point, to: &Point) -> (i64, i64)
    requires { (step : ℤ × ℤ) × LeadTo count.now step from.now to.now }
    ensures leads { LeadTo count.now result from.now to.now }
    ensures small { SpotWithin (pos (2 ^ 32)) result }
{
    (part(count, &from.x, &to.x), part(count, &from.y, &to.y))
}

// The one of so many equal parts of the way from one coordinate to the other.
fn part(count: &i16, from: &i32, to: &i32) -> i64
    requires some { pos 1 ≤ℤ count.now }
    requires whole { (part : ℤ) × (count.now *ℤ part ≡ to.now -ℤ from.now) }
    ensures value { count.now *ℤ result ≡ to.now -ℤ from.now }
    ensures low { neg_ℤ (pos (2 ^ 32)) ≤ℤ result }
    ensures high { result ≤ℤ pos (2 ^ 32) }
{
    way(from, to) / i64::from(*count)
}

// The way from one coordinate to the other.
fn way(from: &i32, to: &i32) -> i64
    ensures value { result ≡ to.now -ℤ from.now }
    ensures low { neg_ℤ (pos (2 ^ 32)) ≤ℤ result }
    ensures high { result ≤ℤ pos (2 ^ 32) }
{
    i64::from(*to) - i64::from(*from)
}

// Appends the rows of an array.
fn push_rows(
    alloc: Global,
    items: &mut List<Item>,
    strides: &Strides,
    counts: (u16, u16),
    inner: &[Item],
) -> Result<(), OutOfMemory>
    requires near { All (PieceWithin most_reach) (pieces_in inner.now) }
    ensures small { OnOk result (All (ShiftsWithin most_shift) (all_steps strides.now.orient strides.now.origin strides.now.across strides.now.up counts.0 counts.1)) }
    ensures items { OnOk result (pieces_in items.new ≡ pieces_in items.old ++ all_moved (all_steps strides.now.orient strides.now.origin strides.now.across strides.now.up counts.0 counts.1) (pieces_in inner.now)) }
{
    for row in 0..counts.1 {
        push_row(alloc, items, strides, row, counts.0, inner)?;
    }
    Ok(())
}

// Appends a row of an array.
fn push_row(
    alloc: Global,
    items: &mut List<Item>,
    strides: &Strides,
    row: u16,
    columns: u16,
    inner: &[Item],
) -> Result<(), OutOfMemory>
    requires near { All (PieceWithin most_reach) (pieces_in inner.now) }
    ensures small { OnOk result (All (ShiftsWithin most_shift) (row_steps strides.now.orient strides.now.origin strides.now.across strides.now.up columns row)) }
    ensures items { OnOk result (pieces_in items.new ≡ pieces_in items.old ++ all_moved (row_steps strides.now.orient strides.now.origin strides.now.across strides.now.up columns row) (pieces_in inner.now)) }
{
    for column in 0..columns {
        let step = step_in(strides, row, column);
        push_moved(alloc, items, &step, inner)?;
    }
    Ok(())
}

// The step to the place in a row and a column.
fn step_in(strides: &Strides, row: u16, column: u16) -> Step
    ensures value { result ≡ step_at strides.now.orient strides.now.origin strides.now.across strides.now.up row column }
    ensures small { ShiftsWithin most_shift result }
{
    Step {
        orient: strides.orient,
        dx: along(
            &strides.origin.x,
            &strides.across.0,
            column,
            &strides.up.0,
            row,
        ),
        dy: along(
            &strides.origin.y,
            &strides.across.1,
            column,
            &strides.up.1,
            row,
        ),
    }
}

// A coordinate after so many steps.
fn along(from: &i32, across: &i64, column: u16, up: &i64, row: u16) -> i64
    requires across_low { neg_ℤ (pos (2 ^ 32)) ≤ℤ across.now }
    requires across_high { across.now ≤ℤ pos (2 ^ 32) }
    requires up_low { neg_ℤ (pos (2 ^ 32)) ≤ℤ up.now }
    requires up_high { up.now ≤ℤ pos (2 ^ 32) }
    ensures value { result ≡ (from.now +ℤ pos row *ℤ up.now) +ℤ pos column *ℤ across.now }
    ensures low { neg_ℤ most_shift ≤ℤ result }
    ensures high { result ≤ℤ most_shift }
{
    i64::from(*from) + times(row, up) + times(column, across)
}

// So many steps.
fn times(count: u16, step: &i64) -> i64
    requires from_low { neg_ℤ (pos (2 ^ 32)) ≤ℤ step.now }
    requires from_high { step.now ≤ℤ pos (2 ^ 32) }
    ensures value { result ≡ pos count *ℤ step.now }
    ensures low { neg_ℤ (pos (2 ^ 48)) ≤ℤ result }
    ensures high { result ≤ℤ pos (2 ^ 48) }
{
    i64::from(count) * *step
}

// Appends items moved by a step.
fn push_moved(
    alloc: Global,
    items: &mut List<Item>,
    step: &Step,
    inner: &[Item],
) -> Result<(), OutOfMemory>
    requires small { ShiftsWithin most_shift step.now }
    requires near { All (PieceWithin most_reach) (pieces_in inner.now) }
    ensures { OnOk result (pieces_in items.new ≡ pieces_in items.old ++ map (piece_moved step.now) (pieces_in inner.now)) }
{
    for item in inner {
        let moved = moved_item(alloc, step, item)?;
        items.push(moved)?;
    }
    Ok(())
}

// An item moved by a step.
fn moved_item(alloc: Global, step: &Step, item: &Item) -> Result<Item, OutOfMemory>
    requires small { ShiftsWithin most_shift step.now }
    requires near { PieceWithin most_reach (piece_of item.now) }
    ensures { IfOk result (λ moved. piece_of moved ≡ piece_moved step.now (piece_of item.now)) }
{
    Ok(Item {
        offset: item.offset,
        mask: item.mask,
        drawn: moved_drawn(alloc, step, &item.drawn)?,
    })
}

// What an item draws, moved by a step.
fn moved_drawn(alloc: Global, step: &Step, drawn: &Drawn) -> Result<Drawn, OutOfMemory>
    requires small { ShiftsWithin most_shift step.now }
    requires near { DrawingWithin most_reach (drawing_of drawn.now) }
    ensures { IfOk result (λ moved. drawing_of moved ≡ drawing_moved step.now (drawing_of drawn.now)) }
{
    match drawn {
        Drawn::Area(rect) => Ok(Drawn::Area(moved_rect(step, rect))),
        Drawn::Note { at, text } => Ok(Drawn::Note {
            at: moved_point(step, *at),
            text: text.copy(alloc)?,
        }),
    }
}
