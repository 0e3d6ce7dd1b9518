//! Streams of the format GDSII: what one holds, how it is read, and the stream of a flat cell.
#![tactic(auto)]

mod cell;
mod counting;
mod data;
mod error;
mod laws;
mod library;
mod points;
mod reader;
mod reading;
mod shapes;
mod structures;
mod writing;

pub use cell::{Flat, Note, Shape};
pub use error::StreamError;
pub use gds_grammar::Cause;
pub use laws::{no_library_stops, one_library};
pub use library::{Element, Library, Place, Structure};
pub use points::Points;
pub use reading::read_stream;
pub use writing::write_stream;
