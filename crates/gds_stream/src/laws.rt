//! What holds of streams and of the libraries that they hold, for callers.
ghost use Rattle.std.specs.Prelude.{◌≡◌, ℕ, List};
ghost use Rattle.gds_grammar.specs.declared.cause.Cause.{Cause};
ghost use Rattle.gds_grammar.specs.Stops.{Stops};
ghost use Rattle.gds_stream.specs.declared.library.Library.{Library};
ghost use Rattle.gds_stream.specs.Contents.{Stream};

/// Law: bytes hold one library at most. (This project's own.)
pub fn one_library()
    ensures { (bytes : List ℕ) (a b : Library) → Stream bytes a → Stream bytes b → a ≡ b }
{}

/// Law: bytes that hold a library don't stop being a stream. (This project's own.)
pub fn no_library_stops()
    ensures { (bytes : List ℕ) (library : Library) (place : ℕ) (cause : Cause) → Stream bytes library → Stops bytes place cause → ⊥ }
{}
