//! Why a rule table or a sizes file is refused.
use rt_base::{OutOfMemory, Text};
use rt_tech::TableCause;
use thiserror::Error;

/// Why a rule table or a sizes file is refused.
#[derive(Debug, Drop, Error)]
pub enum TableError {
    /// The bytes aren't a TOML document.
    #[error("not TOML")]
    BadToml,
    /// A key of a rule table is at fault: the first one, in the order in which a table is read.
    #[error("table: {cause:?} at {key:?}")]
    BadTable {
        /// The path of the key, as `mask.2.width`. A byte outside 32 to 126 is written as `?`.
        key: Text,
        /// What is wrong there.
        cause: TableCause,
    },
    /// Two tables don't have one form: the first key that differs.
    #[error("tables differ at {key:?}")]
    TablesDiffer {
        /// The path of the key.
        key: Text,
    },
    /// A key of a sizes file is at fault: the first one, in the order in which a sizes file is read.
    #[error("sizes: {cause:?} at {key:?}")]
    BadSizes {
        /// The path of the key, as `device.2.index`. A byte outside 32 to 126 is written as `?`.
        key: Text,
        /// What is wrong there.
        cause: TableCause,
    },
    /// There was no memory.
    #[error("out of memory")]
    OutOfMemory,
}

impl From<OutOfMemory> for TableError {
    fn from(_: OutOfMemory) -> TableError {
        TableError::OutOfMemory
    }
}
