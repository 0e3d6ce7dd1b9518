//! What holds of every library that a stream holds, for callers.
ghost use Rattle.std.specs.Prelude.{ℕ, List};
ghost use Rattle.gds_stream.specs.declared.library.Library.{Library};
ghost use Rattle.gds_stream.specs.declared.cell.Flat.{Flat};
ghost use Rattle.gds_stream.specs.Contents.{Stream};
ghost use Rattle.gds_stream.specs.Written.{written, FitsWriter, OneCell};
ghost use Rattle.gds_stream_laws.specs.Lawful.{IsLawful};

/// Law: every library that a stream holds is lawful: names that fit a record, structures of different names that aren't
/// empty, elements with as many points as their kinds want, and texts that fit a record. (GDSII Release 6.)
pub fn streams_are_lawful()
    ensures { (bytes : List ℕ) (library : Library) → Stream bytes library → IsLawful library }
{}

/// Law: whatever library the writer's bytes for a cell hold is this cell's: its library name, its units and one structure, of
/// its name, whose elements are its shapes and then its texts, in order. So the reader reads back what the writer wrote. (This
/// project's own.)
pub fn what_is_written_is_read_back()
    ensures { (cell : Flat) (library : Library) → FitsWriter cell → Stream (written cell) library → OneCell library cell }
{}
