//! What a stream of the format GDSII is: its grammar over types of records, what each record owes where it stands, and
//! where bytes that are no stream stop being one. Bytes are one stream at most, or stop being one at one place, for one cause.
#![tactic(auto)]

mod cause;
mod laws;

pub use cause::Cause;
pub use laws::{
    a_cut_stream_stops, bytes_hold_a_stream_or_stop, ends_longest, no_stream_stops, one_fault,
    one_stream,
};
