//! The types of records and of their data, as numbers. (GDSII Release 6.)

/// No data.
pub const NO_DATA: u8 = 0;
/// A bit array of two bytes.
pub const BITS: u8 = 1;
/// Signed integers of two bytes.
pub const TWO_BYTES: u8 = 2;
/// Signed integers of four bytes.
pub const FOUR_BYTES: u8 = 3;
/// Reals of eight bytes.
pub const REAL: u8 = 5;
/// Characters.
pub const CHARACTERS: u8 = 6;
/// The stream's version.
pub const HEADER: u8 = 0x00;
/// A library begins; its dates.
pub const BGNLIB: u8 = 0x01;
/// The library's name.
pub const LIBNAME: u8 = 0x02;
/// The database unit in user units and in metres.
pub const UNITS: u8 = 0x03;
/// The library ends.
pub const ENDLIB: u8 = 0x04;
/// A structure begins; its dates.
pub const BGNSTR: u8 = 0x05;
/// The structure's name.
pub const STRNAME: u8 = 0x06;
/// The structure ends.
pub const ENDSTR: u8 = 0x07;
/// A polygon begins.
pub const BOUNDARY: u8 = 0x08;
/// A path begins.
pub const PATH: u8 = 0x09;
/// A reference to a structure begins.
pub const SREF: u8 = 0x0a;
/// An array of references begins.
pub const AREF: u8 = 0x0b;
/// A text begins.
pub const TEXT: u8 = 0x0c;
/// An element's layer.
pub const LAYER: u8 = 0x0d;
/// A polygon's or a path's data type.
pub const DATATYPE: u8 = 0x0e;
/// A path's width.
pub const WIDTH: u8 = 0x0f;
/// An element's points.
pub const XY: u8 = 0x10;
/// An element ends.
pub const ENDEL: u8 = 0x11;
/// The name of the structure that is placed.
pub const SNAME: u8 = 0x12;
/// An array's columns and rows.
pub const COLROW: u8 = 0x13;
/// A node begins.
pub const NODE: u8 = 0x15;
/// A text's type.
pub const TEXTTYPE: u8 = 0x16;
/// How a text is shown.
pub const PRESENTATION: u8 = 0x17;
/// A text's bytes.
pub const STRING: u8 = 0x19;
/// How a placement turns.
pub const STRANS: u8 = 0x1a;
/// A placement's magnification.
pub const MAG: u8 = 0x1b;
/// A placement's angle, in degrees.
pub const ANGLE: u8 = 0x1c;
/// How a path ends.
pub const PATHTYPE: u8 = 0x21;
/// An element's flags.
pub const ELFLAGS: u8 = 0x26;
/// A node's type.
pub const NODETYPE: u8 = 0x2a;
/// A property's number.
pub const PROPATTR: u8 = 0x2b;
/// A property's value.
pub const PROPVALUE: u8 = 0x2c;
/// A box begins.
pub const BOX: u8 = 0x2d;
/// A box's type.
pub const BOXTYPE: u8 = 0x2e;
/// A record whose data aren't looked at.
pub const REFLIBS: u8 = 0x1f;
/// A record whose data aren't looked at.
pub const FONTS: u8 = 0x20;
/// A record whose data aren't looked at.
pub const GENERATIONS: u8 = 0x22;
/// A record whose data aren't looked at.
pub const ATTRTABLE: u8 = 0x23;
/// A record whose data aren't looked at.
pub const STRCLASS: u8 = 0x34;
/// A record whose data aren't looked at.
pub const FORMAT: u8 = 0x36;
/// A record whose data aren't looked at.
pub const MASK: u8 = 0x37;
/// A record whose data aren't looked at.
pub const ENDMASKS: u8 = 0x38;
/// A record whose data aren't looked at.
pub const LIBDIRSIZE: u8 = 0x39;
/// A record whose data aren't looked at.
pub const SRFNAME: u8 = 0x3a;
/// A record whose data aren't looked at.
pub const LIBSECUR: u8 = 0x3b;
/// A record whose data aren't looked at.
pub const PLEX: u8 = 0x2f;
/// A record whose data aren't looked at.
pub const BGNEXTN: u8 = 0x30;
/// A record whose data aren't looked at.
pub const ENDEXTN: u8 = 0x31;

/// The types of records that are skipped where they may stand: their data aren't looked at. (This project's choice.)
pub const SKIPPED: [u8; 11] = [
    REFLIBS,
    FONTS,
    GENERATIONS,
    ATTRTABLE,
    STRCLASS,
    FORMAT,
    MASK,
    ENDMASKS,
    LIBDIRSIZE,
    SRFNAME,
    LIBSECUR,
];

/// The types of records whose data aren't looked at though they aren't skipped: a plex number and a path's extensions,
/// which nothing here depends on. (This project's choice.)
pub const UNREAD: [u8; 3] = [PLEX, BGNEXTN, ENDEXTN];

/// The types of records that begin an element.
pub const STARTS: [u8; 7] = [BOUNDARY, PATH, SREF, AREF, TEXT, NODE, BOX];
