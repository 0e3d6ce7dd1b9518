//! What a program asks of the outside: to fetch a file, to store one, and to say bytes.
ghost use Rattle.std.specs.Prelude.{◌≡◌};
ghost use Rattle.std.specs.IoError.{error_kind};
ghost use Rattle.rt_desk.specs.Cause.{IsCauseOf};
ghost use Rattle.rt_desk.specs.declared.outside.DeskError.TheVariants.{OutOfMemory};
ghost use Rattle.rt_desk.specs.Desk.{Outside, Fetches, Stores, Says};

use std::alloc::{AllocError, Global};
use std::io;
use std::io::ErrorKind;
use thiserror::Error;

/// Why a call of a desk gave no answer. The rule is this project's own.
#[derive(Clone, Copy, Debug, PartialEq, Eq, Error)]
pub enum DeskError {
    /// The outside failed. The call's count of faults rose.
    #[error("the call failed")]
    Failed,
    /// No file has the name. Only a desk that tells its files answers so, and only to a fetch.
    #[error("no such file")]
    Missing,
    /// The file has more bytes than were allowed. Only a fetch is answered so.
    #[error("the file is too long")]
    TooLong,
    /// There was no memory for the call. Nothing changed but what a desk counts.
    #[error("out of memory")]
    OutOfMemory,
}

/// Want of memory.
impl From<AllocError> for DeskError {
    ghost from_gives = { λ _ cause. cause ≡ OutOfMemory };

    fn from(_error: AllocError) -> DeskError {
        DeskError::OutOfMemory
    }
}

/// Want of memory is `OutOfMemory`, and every other error of the system is `Failed`.
impl From<io::Error> for DeskError {
    ghost from_gives = { λ error cause. IsCauseOf (error_kind error) cause };

    fn from(error: io::Error) -> DeskError {
        match error.kind() {
            ErrorKind::OutOfMemory => DeskError::OutOfMemory,
            _ => DeskError::Failed,
        }
    }
}

/// What stands for files, standard output and their faults. The rule is this project's own.
///
/// A desk may tell its files and what was said, and then tells them always. It counts the faults of each
/// of its three calls; a count never falls, and its own call alone changes it.
pub trait Desk {
    // the files and what was said, where the desk tells them, and its three counts of faults
    ghost seen: { Self → Outside };

    /// The bytes of the file `name`, which are at most `most`. It changes no file.
    ///
    /// `Failed` comes only where the count of faults rose, `Missing` only where the desk tells its files
    /// and none has the name, and `TooLong` only where the file has more than `most` bytes; a desk that
    /// doesn't tell its files counts that as a fault.
    fn fetch(&mut self, alloc: Global, name: &str, most: u64) -> Result<Vec<u8>, DeskError>
        ensures { Fetches (seen self.old) (seen self.new) name.now most result };

    /// Makes `bytes` the whole file `name`, and leaves every other file.
    ///
    /// `Failed` comes only where the count of faults rose, and then the file `name` may hold any bytes; where it was
    /// there, it is there still. After `OutOfMemory` no file has changed. There is no other error.
    fn store(&mut self, name: &str, bytes: &[u8]) -> Result<(), DeskError>
        ensures { Stores (seen self.old) (seen self.new) name.now bytes.now result };

    /// Says `bytes` on the standard output, after all that was said before. It changes no file.
    ///
    /// `Failed` comes only where the count of faults rose, and then some first part of the bytes was said.
    /// After `OutOfMemory` nothing was said. There is no other error.
    fn say(&mut self, bytes: &[u8]) -> Result<(), DeskError>
        ensures { Says (seen self.old) (seen self.new) bytes.now result };
}
