//! A stream is read whole.
ghost use Rattle.std.specs.Prelude.{◌≡◌, ℕ, List, IfOk, IfErr};
ghost use Rattle.gds_grammar.specs.Reading.{start};
ghost use Rattle.gds_stream.specs.Contents.{Stream};
ghost use Rattle.gds_stream.specs.Refusals.{IsRefused};

use crate::error::StreamError;
use crate::library::Library;
use crate::reader::Reader;
use std::alloc::Global;

/// The library that a stream holds, in time that grows with its length. Records whose values aren't looked at are
/// dropped, and behind the last record all bytes are zeros. A refusal names the first place where the bytes stop
/// being a stream, and why. (GDSII Release 6; where skipped records may stand is this project's own.)
pub fn read_stream(alloc: Global, bytes: &[u8]) -> Result<Library, StreamError>
    ensures library { IfOk result (λ l. Stream bytes.now l) }
    ensures fault { IfErr result (λ e. IsRefused bytes.now e) }
{
    let mut reader = Reader::new(alloc, bytes);
    reader.whole()
}

impl<'a> Reader<'a> {
    // The library that the bytes hold, from whose start on it reads.
    fn whole(&mut self) -> Result<Library, StreamError>
        ensures library { (bytes : List ℕ) → self.old ≡ start bytes → IfOk result (λ l. Stream bytes l) }
        ensures fault { (bytes : List ℕ) → self.old ≡ start bytes → IfErr result (λ e. IsRefused bytes e) }
    {
        let _rest = self.rest();
        let library = self.library()?;
        self.zeros()?;
        Ok(library)
    }
}
