//! What each type of record has for data. (GDSII Release 6.)
ghost use Rattle.std.specs.Prelude.{◌≡◌};
ghost use Rattle.gds_records.specs.Records.{data_of, is_free, known};
ghost use Rattle.gds_records.specs.Framing.{whole_items, has_its_data};

use crate::types::{
    ANGLE, AREF, BGNLIB, BGNSTR, BITS, BOUNDARY, BOX, BOXTYPE, CHARACTERS, COLROW, DATATYPE,
    ELFLAGS, ENDEL, ENDLIB, ENDSTR, FOUR_BYTES, HEADER, LAYER, LIBNAME, MAG, NO_DATA, NODE,
    NODETYPE, PATH, PATHTYPE, PRESENTATION, PROPATTR, PROPVALUE, REAL, SKIPPED, SNAME, SREF,
    STRANS, STRING, STRNAME, TEXT, TEXTTYPE, TWO_BYTES, UNITS, UNREAD, WIDTH, XY,
};

// The data type of a type, None where the data aren't looked at or there is no such type.
fn data_of(code: u8) -> Option<u8>
    ensures { result ≡ data_of code }
{
    match code {
        ENDLIB | ENDSTR | BOUNDARY | PATH | SREF | AREF | TEXT | ENDEL | NODE | BOX => Some(
            NO_DATA,
        ),
        PRESENTATION | STRANS | ELFLAGS => Some(BITS),
        HEADER
        | BGNLIB
        | BGNSTR
        | LAYER
        | DATATYPE
        | COLROW
        | TEXTTYPE
        | PATHTYPE
        | NODETYPE
        | PROPATTR
        | BOXTYPE => Some(TWO_BYTES),
        WIDTH | XY => Some(FOUR_BYTES),
        UNITS | MAG | ANGLE => Some(REAL),
        LIBNAME | STRNAME | SNAME | STRING | PROPVALUE => Some(CHARACTERS),
        _ => None,
    }
}

// Whether the data of the type aren't looked at.
fn is_free(code: u8) -> bool
    ensures { result ≡ is_free code }
{
    SKIPPED.contains(&code) || UNREAD.contains(&code)
}

/// Whether there is such a type.
pub fn is_known(code: u8) -> bool
    ensures { result ≡ known code }
{
    data_of(code).is_some() || is_free(code)
}

// Whether the data are whole items of the data type, and none where it has none.
fn whole_items(form: u8, body: &[u8]) -> bool
    ensures { result ≡ whole_items form body.now }
{
    let unit = match form {
        NO_DATA => return body.is_empty(),
        BITS | TWO_BYTES => 2,
        FOUR_BYTES => 4,
        REAL => 8,
        _ => 1,
    };
    body.len() % unit == 0
}

/// Whether the data are such as the type has.
#[tactic(auto, unfolding(crate::specs::Framing::has_its_data))]
pub fn has_its_data(code: u8, form: u8, body: &[u8]) -> bool
    ensures { result ≡ has_its_data code form body.now }
{
    match data_of(code) {
        Some(expected) => form == expected && whole_items(expected, body),
        None => true,
    }
}
