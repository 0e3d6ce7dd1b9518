//! The records of a stream: how one is put behind bytes, and how one is read. (GDSII Release 6.)
#![tactic(auto)]

mod laws;
mod put;
mod reading;
mod real;
mod table;
mod types;

pub use laws::{framing_decides, one_value};
pub use put::put_record;
pub use reading::{Part, RecordError, next_record};
pub use real::{is_real_one, quarter_turns, whole_real};
pub use types::{
    ANGLE, AREF, ATTRTABLE, BGNEXTN, BGNLIB, BGNSTR, BITS, BOUNDARY, BOX, BOXTYPE, CHARACTERS,
    COLROW, DATATYPE, ELFLAGS, ENDEL, ENDEXTN, ENDLIB, ENDMASKS, ENDSTR, FONTS, FORMAT, FOUR_BYTES,
    GENERATIONS, HEADER, LAYER, LIBDIRSIZE, LIBNAME, LIBSECUR, MAG, MASK, NO_DATA, NODE, NODETYPE,
    PATH, PATHTYPE, PLEX, PRESENTATION, PROPATTR, PROPVALUE, REAL, REFLIBS, SKIPPED, SNAME, SREF,
    SRFNAME, STARTS, STRANS, STRCLASS, STRING, STRNAME, TEXT, TEXTTYPE, TWO_BYTES, UNITS, UNREAD,
    WIDTH, XY,
};
