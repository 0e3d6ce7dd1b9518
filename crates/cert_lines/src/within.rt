//! Whether the numbers of a line are within the limits.
ghost use Rattle.std.specs.Prelude.{◌≡◌, true, ◌∷◌, [], pos, neg_ℤ, All, MatchBool};
ghost use Rattle.cert_lines.specs.Lines.{row_numbers};
ghost use Rattle.cert_lines.specs.Limits.{IsFrom, IsPlace, IsNumber, IsVariable, IsStripWithin, IsBranchWithin, IsNodeWithin, IsShareWithin, IsWithin};

use crate::limits::{DIVISOR_LIMIT, LAST_STRIP, PLACE_LIMIT, SHARES_LIMIT, TIMES_LIMIT};
use crate::line::Line;
use crate::rows::row_numbers;
use rt_rows::{Of, Var};

/// Whether all numbers of the line are within the limits.
pub fn is_within(line: &Line) -> bool
    ensures { MatchBool result (IsWithin line.now) (¬ IsWithin line.now) }
{
    match *line {
        Line::Title | Line::NoneAcross | Line::NoAxis | Line::Across | Line::Upwards | Line::End =>
            true,
        Line::Done { width, height } => are_places(&[width, height]),
        Line::NoneUpwards { width } => is_from(-PLACE_LIMIT, PLACE_LIMIT, &width),
        Line::Axis { twice } => is_from(-PLACE_LIMIT, PLACE_LIMIT, &twice),
        Line::Strip {
            number,
            left,
            bottom,
            right,
            top,
        } => is_strip_within(&number, &[left, bottom, right, top]),
        Line::Column {
            number,
            left,
            right,
        } => is_strip_within(&number, &[left, right]),
        Line::Branch { var, at } => is_branch_within(&var, &at),
        Line::Cut { over, shares } => is_node_within(&over, &shares),
        Line::Bound { over, shares } => is_node_within(&over, &shares),
        Line::Empty { over, shares } => is_node_within(&over, &shares),
        Line::Share { times, of } => is_share_within(&times, &of),
    }
}

// Whether the number is one of those from the least to the most.
fn is_from(least: i128, most: i128, number: &i128) -> bool
    ensures { MatchBool result (IsFrom least most number.now) (¬ IsFrom least most number.now) }
{
    if least <= *number {
        *number <= most
    } else {
        false
    }
}

// Whether all numbers are places.
fn are_places(numbers: &[i128]) -> bool
    ensures { MatchBool result (All IsPlace numbers.now) (¬ All IsPlace numbers.now) }
{
    numbers
        .iter()
        .all(|number| is_from(-PLACE_LIMIT, PLACE_LIMIT, number))
}

// Whether the numbers of a line on a strip are within the limits.
fn is_strip_within(number: &i128, places: &[i128]) -> bool
    ensures { MatchBool result (IsStripWithin number.now places.now) (¬ IsStripWithin number.now places.now) }
{
    if is_from(0, LAST_STRIP, number) {
        are_places(places)
    } else {
        false
    }
}

// Whether the numbers of a branch are within the limits.
fn is_branch_within(var: &Var, at: &i128) -> bool
    ensures { MatchBool result (IsBranchWithin var.now at.now) (¬ IsBranchWithin var.now at.now) }
{
    if is_variable(var) {
        is_from(-PLACE_LIMIT, PLACE_LIMIT, at)
    } else {
        false
    }
}

// That a variable is of a strip that can be numbered.
fn is_variable(var: &Var) -> bool
    ensures { MatchBool result (IsVariable var.now) (¬ IsVariable var.now) }
{
    match *var {
        Var::L(i) => is_number(i),
        Var::R(i) => is_number(i),
        Var::B(i) => is_number(i),
        Var::T(i) => is_number(i),
        Var::Width | Var::Height | Var::Axis => true,
    }
}

// That a number of 32 bits is the number of a strip.
fn is_number(number: u32) -> bool
    ensures value { result ≡ true }
    ensures fits { IsNumber number }
{
    number <= u32::MAX
}

// Whether the numbers of a node are within the limits.
fn is_node_within(over: &i128, shares: &i128) -> bool
    ensures { MatchBool result (IsNodeWithin over.now shares.now) (¬ IsNodeWithin over.now shares.now) }
{
    if is_from(1, DIVISOR_LIMIT, over) {
        is_from(0, SHARES_LIMIT, shares)
    } else {
        false
    }
}

// Whether the numbers of a share are within the limits.
fn is_share_within(times: &i128, of: &Of) -> bool
    ensures { MatchBool result (IsShareWithin times.now of.now) (¬ IsShareWithin times.now of.now) }
{
    let (numbers, count) = row_numbers(of);
    let _fit = are_numbers(&numbers[..count]);
    is_from(-TIMES_LIMIT, TIMES_LIMIT, times)
}

// That numbers of 32 bits are numbers of a row.
fn are_numbers(numbers: &[u32]) -> bool
    ensures { All IsNumber numbers.now }
{
    numbers.is_empty()
}
