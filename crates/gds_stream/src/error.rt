//! Why bytes give no library.
ghost use Rattle.std.specs.Prelude.{◌≡◌};
ghost use Rattle.gds_stream.specs.declared.error.StreamError.TheVariants.{OutOfMemory as no_memory};

use gds_grammar::Cause;
use rt_base::OutOfMemory;
use thiserror::Error;

/// Why bytes give no library.
#[derive(Clone, Copy, Debug, Drop, Error)]
pub enum StreamError {
    /// Up to this byte they begin a stream, and there they don't go on as one. (This project's own.)
    #[error("byte {offset}: {cause}")]
    At {
        /// The place of the first byte of the record at fault, or of the byte behind the last record.
        offset: u64,
        /// What is wrong there.
        cause: Cause,
    },
    /// There was no memory for what the stream holds.
    #[error("out of memory")]
    OutOfMemory,
}

impl From<OutOfMemory> for StreamError {
    ghost from_gives = { λ _ e. e ≡ no_memory };

    fn from(_error: OutOfMemory) -> StreamError {
        StreamError::OutOfMemory
    }
}
