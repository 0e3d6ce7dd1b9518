//! What holds of streams, and of bytes that are none, for callers.
ghost use Rattle.std.specs.Prelude.{◌≡◌, ◌<◌, ◌^◌, ◌⊎◌, ℕ, List, ◌∷◌, ◌++◌, All, length, replicate, take};
ghost use Rattle.gds_records.specs.Records.{Item, spelled, flat};
ghost use Rattle.gds_grammar.specs.declared.cause.Cause.{Cause};
ghost use Rattle.gds_grammar.specs.declared.cause.Cause.TheVariants.{NotClosed, Short};
ghost use Rattle.gds_grammar.specs.Conditions.{AreStream, HoldStream};
ghost use Rattle.gds_grammar.specs.Stops.{Stops, StopSomewhere};
ghost use Rattle.gds_grammar.specs.Longest.{EndsLongest};

/// Law: bytes are the records of one stream at most, with zeros behind them. (This project's own.)
pub fn one_stream()
    ensures { (bytes : List ℕ) (a b : List Item) (m n : ℕ) → AreStream a → AreStream b
        → bytes ≡ flat a ++ replicate m 0 → bytes ≡ flat b ++ replicate n 0 → (a ≡ b) × (m ≡ n) }
{}

/// Law: bytes that are a stream's, with zeros behind them, don't stop being one anywhere. (This project's own.)
pub fn no_stream_stops()
    ensures { (bytes : List ℕ) (items : List Item) (zeros place : ℕ) (cause : Cause) → AreStream items
        → bytes ≡ flat items ++ replicate zeros 0 → Stops bytes place cause → ⊥ }
{}

/// Law: bytes stop being a stream at one place at most, and for one cause. (This project's own.)
pub fn one_fault()
    ensures { (bytes : List ℕ) (p q : ℕ) (c d : Cause) → Stops bytes p c → Stops bytes q d → (p ≡ q) × (c ≡ d) }
{}

/// Law: the place where bytes stop being a stream is the end of the longest list of whole records with which they and
/// some stream begin; where that is a whole stream, it is the first byte behind it that isn't 0. (This project's own.)
pub fn ends_longest()
    ensures { (bytes : List ℕ) (place : ℕ) (cause : Cause) → Stops bytes place cause → EndsLongest bytes place }
{}

/// Law: a stream that is cut stops where it should. Cut between two records, it isn't closed at the end of its bytes; cut
/// inside a record, it is short where that record begins. (This project's own.)
pub fn a_cut_stream_stops()
    ensures between { (items : List Item) (i : Item) (more : List Item) → AreStream (items ++ i ∷ more) → Stops (flat items) (length (flat items)) NotClosed }
    ensures inside { (items : List Item) (i : Item) (more : List Item) (n : ℕ) → AreStream (items ++ i ∷ more) → 0 < n → n < length (spelled i)
        → Stops (flat items ++ take n (spelled i)) (length (flat items)) Short }
{}

/// Law: bytes hold a stream, or they stop being one somewhere. (This project's own.)
pub fn bytes_hold_a_stream_or_stop()
    ensures { (bytes : List ℕ) → All (λ b. b < 256) bytes → length bytes < 2 ^ 63 → HoldStream bytes ⊎ StopSomewhere bytes }
{}
