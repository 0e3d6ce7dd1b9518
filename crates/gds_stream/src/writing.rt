//! The stream of a flat cell.
ghost use Rattle.std.specs.Prelude.{◌≡◌, ◌+◌, ◌%◌, ◌<◌, ◌≤◌, ◌++◌, [], ◌∷◌, length, All, OnOk, IfOk, FitsSigned};
ghost use Rattle.std.specs.Int.{w32};
ghost use Rattle.std.specs.List.{flat_map};
ghost use Rattle.rt_base.specs.Text.{IsText};
ghost use Rattle.gds_records.specs.Records.{spelled_as, flat};
ghost use Rattle.gds_stream.specs.Written.{padded, corner_bytes, shape_records, note_records, front_records, written, FitsShape, FitsNote, FitsFront, FitsWriter, OneCell};
ghost use Rattle.gds_stream.specs.Contents.{Stream};
ghost use Rattle.gds_stream.specs.declared.library.Library.{Library};

use crate::cell::{Flat, Note, Shape};
use gds_records::{
    BGNLIB, BGNSTR, BOUNDARY, CHARACTERS, DATATYPE, ENDEL, ENDLIB, ENDSTR, FOUR_BYTES, HEADER,
    LAYER, LIBNAME, NO_DATA, REAL, STRING, STRNAME, TEXT, TEXTTYPE, TWO_BYTES, UNITS, XY,
    put_record,
};
use rt_base::{OutOfMemory, Text};
use std::alloc::Global;

/// The stream of a cell, in time that grows with its length. (GDSII Release 6; the order of the records is this project's own.)
pub fn write_stream(alloc: Global, cell: &Flat) -> Result<Vec<u8>, OutOfMemory>
    requires named { 0 < length cell.now.name }
    requires name_short { length cell.now.name ≤ 65530 }
    requires library_short { length cell.now.library ≤ 65530 }
    requires texts_short { All (λ n. length n.text ≤ 65530) cell.now.texts }
    ensures bytes { IfOk result (λ v. v.items ≡ written cell.now) }
    ensures stream { IfOk result (λ v. (library : Library) × Stream v.items library × OneCell library cell.now) }
{
    let mut out = Vec::new(alloc);
    put_cell(alloc, &mut out, cell)?;
    Ok(out)
}

// The records of a cell, and that it has what it takes to be written.
fn put_cell(alloc: Global, out: &mut Vec<u8>, cell: &Flat) -> Result<(), OutOfMemory>
    requires named { 0 < length cell.now.name }
    requires name_short { length cell.now.name ≤ 65530 }
    requires library_short { length cell.now.library ≤ 65530 }
    requires texts_short { All (λ n. length n.text ≤ 65530) cell.now.texts }
    ensures bytes { OnOk result (out.new.items ≡ out.old.items ++ written cell.now) }
    ensures fits { OnOk result (FitsWriter cell.now) }
{
    put_front(alloc, out, cell)?;
    put_shapes(out, cell.shapes.as_slice())?;
    put_notes(alloc, out, cell.texts.as_slice())?;
    put_record(out, ENDSTR, NO_DATA, &[])?;
    put_record(out, ENDLIB, NO_DATA, &[])?;
    Ok(())
}

// The records up to the first element.
fn put_front(alloc: Global, out: &mut Vec<u8>, cell: &Flat) -> Result<(), OutOfMemory>
    requires named { 0 < length cell.now.name }
    requires name_short { length cell.now.name ≤ 65530 }
    requires library_short { length cell.now.library ≤ 65530 }
    ensures ok { OnOk result (out.new.items ≡ out.old.items ++ flat (front_records cell.now)) }
    ensures fits { OnOk result (FitsFront cell.now) }
{
    put_record(out, HEADER, TWO_BYTES, &600i16.to_be_bytes())?;
    put_record(out, BGNLIB, TWO_BYTES, &[0; 24])?;
    put_text(alloc, out, LIBNAME, &cell.library)?;
    put_units(out, &cell.units)?;
    put_record(out, BGNSTR, TWO_BYTES, &[0; 24])?;
    put_text(alloc, out, STRNAME, &cell.name)?;
    Ok(())
}

// The record of the units.
fn put_units(out: &mut Vec<u8>, units: &[u8]) -> Result<(), OutOfMemory>
    requires { length units.now ≡ 16 }
    ensures ok { OnOk result (out.new.items ≡ out.old.items ++ spelled_as UNITS REAL units.now) }
    ensures bytes { All (λ b. b < 256) units.now }
{
    put_record(out, UNITS, REAL, units)
}

// The records of shapes, in order.
fn put_shapes(out: &mut Vec<u8>, shapes: &[Shape]) -> Result<(), OutOfMemory>
    ensures ok { OnOk result (out.new.items ≡ out.old.items ++ flat (flat_map shape_records shapes.now)) }
    ensures fits { OnOk result (All FitsShape shapes.now) }
{
    for shape in shapes {
        put_shape(out, shape)?;
    }
    Ok(())
}

// The records of texts, in order.
fn put_notes(alloc: Global, out: &mut Vec<u8>, notes: &[Note]) -> Result<(), OutOfMemory>
    requires { All (λ n. length n.text ≤ 65530) notes.now }
    ensures ok { OnOk result (out.new.items ≡ out.old.items ++ flat (flat_map note_records notes.now)) }
    ensures fits { OnOk result (All FitsNote notes.now) }
{
    for note in notes {
        put_note(alloc, out, note)?;
    }
    Ok(())
}

// The records of a shape.
fn put_shape(out: &mut Vec<u8>, shape: &Shape) -> Result<(), OutOfMemory>
    ensures ok { OnOk result (out.new.items ≡ out.old.items ++ flat (shape_records shape.now)) }
    ensures fits { OnOk result (FitsShape shape.now) }
{
    put_record(out, BOUNDARY, NO_DATA, &[])?;
    put_record(out, LAYER, TWO_BYTES, &shape.layer.to_be_bytes())?;
    put_record(out, DATATYPE, TWO_BYTES, &shape.datatype.to_be_bytes())?;
    put_record(out, XY, FOUR_BYTES, &corners(shape))?;
    put_record(out, ENDEL, NO_DATA, &[])?;
    Ok(())
}

// The five points of a shape: counterclockwise from the lower left one, which is also the last.
#[tactic(auto, unfolding(crate::specs::Written::corner_bytes))]
fn corners(shape: &Shape) -> [u8; 40]
    ensures value { result ≡ corner_bytes shape.now }
    ensures fits_x { FitsSigned w32 shape.now.x1 × FitsSigned w32 shape.now.x2 }
    ensures fits_y { FitsSigned w32 shape.now.y1 × FitsSigned w32 shape.now.y2 }
{
    let [a, b, c, d] = shape.x1.to_be_bytes();
    let [e, f, g, h] = shape.y1.to_be_bytes();
    let [i, j, k, l] = shape.x2.to_be_bytes();
    let [m, n, o, p] = shape.y2.to_be_bytes();
    [
        a, b, c, d, e, f, g, h, // lower left
        i, j, k, l, e, f, g, h, // lower right
        i, j, k, l, m, n, o, p, // upper right
        a, b, c, d, m, n, o, p, // upper left
        a, b, c, d, e, f, g, h, // lower left
    ]
}

// The records of a text.
fn put_note(alloc: Global, out: &mut Vec<u8>, note: &Note) -> Result<(), OutOfMemory>
    requires { length note.now.text ≤ 65530 }
    ensures ok { OnOk result (out.new.items ≡ out.old.items ++ flat (note_records note.now)) }
    ensures fits { OnOk result (FitsNote note.now) }
{
    let [a, b, c, d] = note.x.to_be_bytes();
    let [e, f, g, h] = note.y.to_be_bytes();
    put_record(out, TEXT, NO_DATA, &[])?;
    put_record(out, LAYER, TWO_BYTES, &note.layer.to_be_bytes())?;
    put_record(out, TEXTTYPE, TWO_BYTES, &note.texttype.to_be_bytes())?;
    put_record(out, XY, FOUR_BYTES, &[a, b, c, d, e, f, g, h])?;
    put_text(alloc, out, STRING, &note.text)?;
    put_record(out, ENDEL, NO_DATA, &[])?;
    Ok(())
}

// A record that holds a text, with one zero behind a text of odd length.
fn put_text(alloc: Global, out: &mut Vec<u8>, code: u8, text: &Text) -> Result<(), OutOfMemory>
    requires { length text.now ≤ 65530 }
    ensures ok { OnOk result (out.new.items ≡ out.old.items ++ spelled_as code CHARACTERS (padded text.now)) }
    ensures printable { OnOk result (IsText text.now) }
{
    let bytes = text.as_slice();
    if bytes.len() % 2 == 0 {
        put_record(out, code, CHARACTERS, bytes)
    } else {
        let mut body = Vec::from_slice(alloc, bytes)?;
        body.push(0)?;
        put_record(out, code, CHARACTERS, &body)
    }
}
