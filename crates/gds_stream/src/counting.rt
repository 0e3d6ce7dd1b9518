//! What a record owes where it stands. (GDSII Release 6.)
ghost use Rattle.std.specs.Prelude.{◌≡◌, ℕ, ◌*◌, ◌/◌, ◌%◌, ◌==◌, ◌&&◌, if◌then◌else◌, ◌≤◌, length, Some, None};
ghost use Rattle.std.specs.List.{list_all};
ghost use Rattle.gds_records.specs.Records.{unit};
ghost use Rattle.gds_grammar.specs.Conditions.{trim, is_number, form_of, number_count};
ghost use Rattle.gds_grammar.specs.Tests.{counted, readable, has_points, is_printable, is_closed};

use crate::data::without_zeros;
use gds_records::{
    ANGLE, AREF, BGNLIB, BGNSTR, BOUNDARY, BOX, BOXTYPE, COLROW, DATATYPE, ELFLAGS, ENDEL, ENDLIB,
    ENDSTR, HEADER, LAYER, LIBNAME, MAG, NODE, NODETYPE, PATH, PATHTYPE, PRESENTATION, PROPATTR,
    PROPVALUE, SNAME, SREF, STRANS, STRING, STRNAME, TEXT, TEXTTYPE, UNITS, WIDTH, XY,
};

/// Whether a record has as many numbers or points as its type and its element want, and its name isn't empty.
#[tactic(auto, unfolding(gds_grammar::specs::Tests::counted))]
#[inline(always)]
pub fn is_counted(element: Option<u8>, code: u8, body: &[u8]) -> bool
    ensures { (at form : ℕ) → result ≡ counted element (record { at = at; code = code; form = form; body = body.now }) }
{
    match code {
        XY => body.len() % 8 == 0 && has_points(element, body),
        STRNAME | SNAME => !without_zeros(body).is_empty(),
        _ => match number_bytes(code) {
            Some(length) => body.len() == length,
            None => true,
        },
    }
}

// How many bytes the numbers of a type have, None where its data are no numbers, or points.
fn number_bytes(code: u8) -> Option<usize>
    ensures { result ≡ (if is_number code then Some (number_count code * unit (form_of code)) else None) }
{
    match code {
        ENDLIB | ENDSTR | BOUNDARY | PATH | SREF | AREF | TEXT | ENDEL | NODE | BOX => None,
        LIBNAME | STRNAME | SNAME | STRING | PROPVALUE | XY => None,
        HEADER | LAYER | DATATYPE | TEXTTYPE | PATHTYPE | NODETYPE | PROPATTR | BOXTYPE => Some(2),
        PRESENTATION | STRANS | ELFLAGS => Some(2),
        WIDTH | COLROW => Some(4),
        MAG | ANGLE => Some(8),
        UNITS => Some(16),
        BGNLIB | BGNSTR => Some(24),
        _ => None,
    }
}

// Whether the points are as many as the element wants, and a polygon's last one is its first.
#[inline(always)]
fn has_points(element: Option<u8>, body: &[u8]) -> bool
    ensures { result ≡ has_points element body.now }
{
    let count = body.len() / 8;
    match element {
        Some(BOUNDARY) => 4 <= count && is_closed(body),
        Some(PATH) => 2 <= count,
        Some(SREF | TEXT) => 1 <= count && count <= 1,
        Some(AREF) => 3 <= count && count <= 3,
        Some(NODE) => 1 <= count,
        Some(BOX) => 5 <= count && count <= 5,
        _ => true,
    }
}

// Whether the last eight bytes are the first eight.
fn is_closed(body: &[u8]) -> bool
    requires { 8 ≤ length body.now }
    ensures { result ≡ is_closed body.now }
{
    body[..8] == body[body.len() - 8..]
}

/// Whether a text that is looked at is printable.
#[tactic(auto, unfolding(gds_grammar::specs::Tests::readable))]
#[inline(always)]
pub fn is_readable(code: u8, body: &[u8]) -> bool
    ensures { (at form : ℕ) → result ≡ readable (record { at = at; code = code; form = form; body = body.now }) }
{
    match code {
        LIBNAME | STRNAME | SNAME | STRING => is_printable(without_zeros(body)),
        _ => true,
    }
}

// Whether all bytes are printable.
fn is_printable(bytes: &[u8]) -> bool
    ensures { result ≡ list_all is_printable bytes.now }
{
    bytes.iter().all(|b| 32 <= *b && *b <= 126)
}
