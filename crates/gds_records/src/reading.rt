//! The record that bytes begin with, or why they begin with none. (GDSII Release 6.)
ghost use Rattle.std.specs.Prelude.{◌≡◌, ◌+◌, ◌^◌, ◌<◌, ◌≤◌, ◌++◌, length, drop, MatchResult, IfOk, IfErr};
ghost use Rattle.gds_records.specs.Records.{spelled, Framed};
ghost use Rattle.gds_records.specs.Framing.{framing, framed_as, item_at, FramingFault};

use crate::table::{has_its_data, is_known};
use thiserror::Error;

/// A record of a stream, without its length. (GDSII Release 6.)
#[derive(Clone, Copy)]
pub struct Part<'a> {
    /// The record's type.
    pub code: u8,
    /// The data type.
    pub form: u8,
    /// The data, behind the four bytes of the header.
    pub body: &'a [u8],
    /// The place of the first byte behind the record.
    pub next: u64,
}

/// Why bytes begin with no record. The causes are tested in the order of `next_record`. (GDSII Release 6.)
#[derive(Clone, Copy, Debug, PartialEq, Eq, Drop, Error)]
pub enum RecordError {
    /// Fewer than four bytes are left, or fewer than the record's length says.
    #[error("the bytes end inside a record")]
    Short,
    /// The length that the record says is odd.
    #[error("the length of the record is odd")]
    OddLength,
    /// The length that the record says is below 4, though it counts the four bytes of the header.
    #[error("the length of the record is below 4")]
    LengthBelow4,
    /// There is no such type of record.
    #[error("the type of the record is unknown")]
    UnknownType,
    /// The data type isn't that of the record's type, or the data aren't whole items of it.
    #[error("the data of the record are not those of its type")]
    WrongData,
}

/// Reads the record that begins at a place, which is at most the bytes' number. The tests, in this order: `Short`
/// where fewer than four bytes remain, `LengthBelow4`, `OddLength`, `Short` where the length goes beyond the bytes,
/// `UnknownType`, and `WrongData` where the data type isn't that of the type, or the data aren't whole items of it.
/// Of the types that are skipped, and of PLEX, BGNEXTN and ENDEXTN, the data aren't looked at. (GDSII Release 6;
/// which types are skipped is this project's choice.)
pub fn next_record(bytes: &[u8], at: u64) -> Result<Part<'_>, RecordError>
    requires { at ≤ length bytes.now }
    ensures exact { MatchResult result
        (λ p. (framing at (drop at bytes.now) ≡ Ok (item_at at p)) × (p.next ≡ at + 4 + length p.body.now))
        (λ e. framing at (drop at bytes.now) ≡ Err e) }
    ensures part { IfOk result (λ p. Framed (item_at at p)
        × (drop at bytes.now ≡ spelled (item_at at p) ++ drop p.next bytes.now)) }
    ensures fault { IfErr result (λ e. FramingFault e (drop at bytes.now)) }
{
    part_of(&bytes[at as usize..], at)
}

// The record that the bytes begin with, which stand at a place.
#[tactic(auto, using(crate::proofs::Framed::framing_nothing))]
fn part_of(bytes: &[u8], at: u64) -> Result<Part<'_>, RecordError>
    requires { at + length bytes.now < 2 ^ 64 }
    ensures { MatchResult result
        (λ p. (framing at bytes.now ≡ Ok (item_at at p)) × (p.next ≡ at + 4 + length p.body.now))
        (λ e. framing at bytes.now ≡ Err e) }
{
    let [high, low, code, form, more @ ..] = bytes else {
        return Err(RecordError::Short);
    };
    let size = u16::from_be_bytes([*high, *low]);
    part_as(at, size as usize, *code, *form, more)
}

// The record at a place, of so many bytes in all, a type, a data type and what stands behind these.
#[tactic(auto, unfolding(crate::specs::Framing::framed_as))]
fn part_as(at: u64, size: usize, code: u8, form: u8, more: &[u8]) -> Result<Part<'_>, RecordError>
    requires { at + 4 + length more.now < 2 ^ 64 }
    ensures { MatchResult result
        (λ p. (framed_as at size code form more.now ≡ Ok (item_at at p)) × (p.next ≡ at + 4 + length p.body.now))
        (λ e. framed_as at size code form more.now ≡ Err e) }
{
    if size < 4 {
        return Err(RecordError::LengthBelow4);
    }
    if size % 2 == 1 {
        return Err(RecordError::OddLength);
    }
    if 4 + more.len() < size {
        return Err(RecordError::Short);
    }
    if !is_known(code) {
        return Err(RecordError::UnknownType);
    }
    let body = &more[..size - 4];
    if !has_its_data(code, form, body) {
        return Err(RecordError::WrongData);
    }
    Ok(Part {
        code,
        form,
        body,
        next: at + size as u64,
    })
}
