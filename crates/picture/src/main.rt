//! The program `picture`: it draws a cell of a GDSII stream as an SVG picture, with the words of the process and over real
//! files. The words are `SOURCE TABLE CELL PICTURE`: a stream and a rule table, which are read, the name of a structure of the
//! stream, and the picture, which is written. The structure is flattened by the table, as it is when a cell is moved.
//!
//! It says one line on standard output, and its status is
//!
//! - 0 where PICTURE holds the picture;
//! - 2 where there are not four words, or one is empty or begins with `-`: a line of usage is said;
//! - 3 where SOURCE is no stream;
//! - 4 where TABLE is no rule table;
//! - 6 where CELL is no structure of the stream, or can't be flattened by the table;
//! - 11 where SOURCE or TABLE can't be read, or is longer than 16,777,216 bytes;
//! - 12 where PICTURE can't be written;
//! - 13 where there was no memory;
//! - 14 where the flat cell has more than 50,000 rectangles and labels;
//! - 15 where the words can't be had from the system: no line is said on standard output, and one on standard error.
//!
//! With every status but 0 and 12 no file is changed, and with those two none but PICTURE.
#![tactic(auto)]

mod answer;
mod bounds;
mod colours;
mod drawing;
mod escapes;
mod frame;
mod layers;
mod legend;
mod reading;
mod running;
mod scale;
mod words;

use crate::answer::Status;
use crate::running::run;
use rt_desk::FileDesk;
use std::process::ExitCode;
use std::{env, io};

// The status where the words can't be had.
const NO_WORDS: u8 = 15;

fn main(rt: HostRuntime) -> ExitCode {
    match collect_words(&rt) {
        Ok(words) => {
            let mut desk = FileDesk::new(&rt);
            let status = run(rt.alloc(), words.as_slice(), &mut desk);
            ExitCode::from(status.0)
        }
        Err(error) => {
            let _ = eprintln!(rt; "picture: couldn't read the words of the command: {error}");
            ExitCode::from(NO_WORDS)
        }
    }
}

// The words behind the program's name.
fn collect_words(rt: &HostRuntime) -> io::Result<Vec<String>> {
    let mut words = Vec::new(rt.alloc());
    for word in env::args(rt)?.skip(1) {
        words.push(word)?;
    }
    Ok(words)
}
