//! Why bytes are no stream. (This project's own.)
use thiserror::Error;

/// Why bytes are no stream, at the place up to which they begin one. The causes are tested in the order NotClosed, those of a
/// record's framing (Short, LengthBelow4, OddLength, UnknownType, WrongData), Unexpected, WrongData by count, BadText,
/// DuplicateName. (This project's own.)
#[derive(Clone, Copy, Debug, PartialEq, Eq, Drop, Error)]
pub enum Cause {
    /// Fewer than four bytes are left, or fewer than the record's length says.
    #[error("the record is cut short")]
    Short,
    /// The record's length is odd.
    #[error("the record's length is odd")]
    OddLength,
    /// The record's length is below 4.
    #[error("the record's length is below 4")]
    LengthBelow4,
    /// There is no such type of records.
    #[error("the record's type is unknown")]
    UnknownType,
    /// The data type isn't that of the type, the data aren't whole items, or there is another number of items than the
    /// type and the element want; a polygon's last point isn't its first; a name is empty.
    #[error("the record's data are wrong")]
    WrongData,
    /// No stream goes on with a record of this type here; behind the last record: this byte isn't 0.
    #[error("{code} isn't expected")]
    Unexpected {
        /// The type of the record, or the byte behind the last record.
        code: u8,
    },
    /// A text has a byte outside 32 to 126, the zeros at its end left out.
    #[error("the text isn't printable")]
    BadText,
    /// The bytes end before the library does.
    #[error("the library doesn't end")]
    NotClosed,
    /// A structure before has this name.
    #[error("another structure has the name")]
    DuplicateName,
}
