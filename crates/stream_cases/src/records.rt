//! Records: put behind bytes, read, refused; and reals.
ghost use Rattle.std.specs.Prelude.{◌≤◌, length};

use gds_records::{
    CHARACTERS, ENDEL, ENDLIB, FONTS, FOUR_BYTES, HEADER, LAYER, MAG, NO_DATA, PLEX, REAL,
    RecordError, TWO_BYTES, WIDTH, is_real_one, next_record, put_record, quarter_turns, whole_real,
};
use std::test::Fail;

#[test]
fn puts_records_behind_each_other(rt: HostRuntime) -> Result<(), Fail> {
    let mut bytes = Vec::new(rt.alloc());
    put_record(&mut bytes, HEADER, TWO_BYTES, &[2, 88])?;
    put_record(&mut bytes, ENDLIB, NO_DATA, &[])?;
    assert_eq!(rt;
        bytes.as_slice(),
        [0, 6, 0, 2, 2, 88, 0, 4, 4, 0].as_slice()
    );
    Ok(())
}

// How the read of a part ends: its error, or its type, its data type, the length of its data and the place behind it.
type Read = Result<(u8, u8, usize, u64), RecordError>;

static READS: [(&[u8], u64, Read); 16] = [
    (
        &[0, 6, 0, 2, 2, 88, 0, 4, 4, 0],
        0,
        Ok((HEADER, TWO_BYTES, 2, 6)),
    ),
    (
        &[0, 6, 0, 2, 2, 88, 0, 4, 4, 0],
        6,
        Ok((ENDLIB, NO_DATA, 0, 10)),
    ),
    (
        &[0, 6, 0, 2, 2, 88, 0, 4, 4, 0],
        10,
        Err(RecordError::Short),
    ),
    (&[0, 4, 4], 0, Err(RecordError::Short)),
    (&[0, 3, 0xff, 0], 0, Err(RecordError::LengthBelow4)),
    (&[0, 5, 0xff, 0], 0, Err(RecordError::OddLength)),
    (&[0, 6, 0xff, 2, 1], 0, Err(RecordError::Short)),
    (&[0, 6, 0xff, 2, 1, 1], 0, Err(RecordError::UnknownType)),
    (&[0, 4, 0x14, 0], 0, Err(RecordError::UnknownType)),
    (
        &[0, 6, LAYER, FOUR_BYTES, 0, 1],
        0,
        Err(RecordError::WrongData),
    ),
    (
        &[0, 6, WIDTH, FOUR_BYTES, 0, 1],
        0,
        Err(RecordError::WrongData),
    ),
    (
        &[0, 6, ENDEL, NO_DATA, 0, 0],
        0,
        Err(RecordError::WrongData),
    ),
    (
        &[0, 8, MAG, REAL, 0x41, 0x10, 0, 0],
        0,
        Err(RecordError::WrongData),
    ),
    (
        &[0, 8, WIDTH, FOUR_BYTES, 0, 0, 0, 1, 9],
        0,
        Ok((WIDTH, FOUR_BYTES, 4, 8)),
    ),
    (&[0, 6, PLEX, 77, 1, 2], 0, Ok((PLEX, 77, 2, 6))),
    (&[0, 4, FONTS, CHARACTERS], 0, Ok((FONTS, CHARACTERS, 0, 4))),
];

// How a part is read at a place.
fn read(bytes: &[u8], at: u64) -> Read
    requires { at ≤ length bytes.now }
{
    let part = next_record(bytes, at)?;
    Ok((part.code, part.form, part.body.len(), part.next))
}

#[test]
fn reads_one_record_or_one_fault(rt: HostRuntime) -> Result<(), Fail> {
    for (bytes, at, wanted) in &READS {
        assert!(rt; *at as usize <= bytes.len());
        assert_eq!(rt; read(bytes, *at), *wanted, "at {at}");
    }
    Ok(())
}

// The bits of a real, its value where that is whole and not too large, and its quarter turns in degrees.
static REALS: [(u64, Option<i64>, Option<u8>); 17] = [
    (0x4110_0000_0000_0000, Some(1), None),
    (0x4e00_0000_0000_0001, Some(1), None),
    (0x4080_0000_0000_0000, None, None),
    (0x425a_0000_0000_0000, Some(90), Some(1)),
    (0x42b4_0000_0000_0000, Some(180), Some(2)),
    (0x4310_e000_0000_0000, Some(270), Some(3)),
    (0x4316_8000_0000_0000, Some(360), Some(0)),
    (0xc25a_0000_0000_0000, Some(-90), Some(3)),
    (0x4200_0000_0000_0000, Some(0), Some(0)),
    (0xff00_0000_0000_0000, Some(0), Some(0)),
    (0x5500_0000_0000_0001, Some(0x1000_0000), None),
    (0x4880_0000_0000_0000, Some(0x8000_0000), None),
    (0xc880_0000_0000_0000, Some(-0x8000_0000), None),
    (0x4880_0000_0100_0000, None, None),
    (0x4f00_0000_0000_002d, Some(720), Some(0)),
    (0x5800_0000_0000_005a, None, Some(0)),
    (0x7fff_ffff_ffff_ffff, None, None),
];

// The value of a real, whether it is 1, and its quarter turns.
fn found(bits: u64) -> (Option<i64>, bool, Option<u8>) {
    let bytes = bits.to_be_bytes();
    (whole_real(bytes), is_real_one(bytes), quarter_turns(bytes))
}

#[test]
fn reads_reals(rt: HostRuntime) -> Result<(), Fail> {
    for (bits, value, turns) in &REALS {
        assert_eq!(rt; found(*bits), (*value, *value == Some(1), *turns), "{bits}");
    }
    Ok(())
}
