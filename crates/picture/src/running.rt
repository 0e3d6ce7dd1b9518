//! A run of the program over a desk: the words, the answer, the store, the line and the status.
ghost use Rattle.std.specs.Prelude.{◌≡◌};
ghost use Rattle.picture.specs.Outcome.{Leaves};

use crate::answer::{Answer, Refusal, Status};
use crate::drawing::picture_of;
use crate::layers::{Layer, layers_of, rectangle_count};
use crate::reading::{Cell, read_cell};
use crate::words::{Names, names_in};
use rt_desk::{Desk, DeskError};
use std::alloc::{AllocError, Global};

/// Runs the program on the words behind its name: it stores the picture that they ask for, and says one line. Where a say fails the
/// status stands.
pub fn run<D: Desk>(alloc: Global, words: &[String], desk: &mut D) -> Status {
    let answer = answer_of(alloc, words, desk);
    say_answer(alloc, &answer, desk);
    answer.status()
}

// Says the line of an answer. Where there is no memory for it, that is said.
fn say_answer<D: Desk>(alloc: Global, answer: &Answer<'_>, desk: &mut D)
    ensures { (D.seen desk.new).files ≡ (D.seen desk.old).files }
{
    let _ = match line_of(alloc, answer) {
        Ok(line) => desk.say(line.as_bytes()),
        Err(_) => desk.say(b"picture: out of memory\n"),
    };
}

// The line of an answer.
fn line_of(alloc: Global, answer: &Answer<'_>) -> Result<String, AllocError> {
    format!(in alloc; "{answer}\n")
}

// The answer of a run.
fn answer_of<'a, D: Desk>(alloc: Global, words: &'a [String], desk: &mut D) -> Answer<'a> {
    match names_in(words) {
        Some(names) => answer_for(alloc, &names, desk),
        None => Answer::Usage,
    }
}

// The answer where the words are names.
fn answer_for<'a, D: Desk>(alloc: Global, names: &Names<'a>, desk: &mut D) -> Answer<'a>
    ensures { Leaves (D.seen desk.old) (D.seen desk.new) names.now.picture.now result }
{
    match read_cell(alloc, names, desk) {
        Ok(cell) => draw_cell(alloc, names, &cell, desk),
        Err(refusal) => Answer::Refused(refusal),
    }
}

// The answer where there is a cell: it is drawn and its picture stored.
fn draw_cell<'a, D: Desk>(alloc: Global, names: &Names<'a>, cell: &Cell, desk: &mut D) -> Answer<'a>
    ensures { Leaves (D.seen desk.old) (D.seen desk.new) names.now.picture.now result }
{
    match layers_of(alloc, &cell.layout, &cell.table) {
        Ok(layers) => draw_layers(alloc, names, cell, &layers, desk),
        Err(_) => Answer::Refused(Refusal::OutOfMemory),
    }
}

// The answer where the masks that are drawn are known.
fn draw_layers<'a, D: Desk>(
    alloc: Global,
    names: &Names<'a>,
    cell: &Cell,
    layers: &[Layer<'_>],
    desk: &mut D,
) -> Answer<'a>
    ensures { Leaves (D.seen desk.old) (D.seen desk.new) names.now.picture.now result }
{
    match picture_of(alloc, &cell.name, &cell.layout, layers) {
        Ok(svg) => store_picture(names.picture, &svg, layers, desk),
        Err(_) => Answer::Refused(Refusal::OutOfMemory),
    }
}

// The answer where the picture is drawn: it is stored.
fn store_picture<'a, D: Desk>(
    picture: &'a str,
    svg: &String,
    layers: &[Layer<'_>],
    desk: &mut D,
) -> Answer<'a>
    ensures { Leaves (D.seen desk.old) (D.seen desk.new) picture.now result }
{
    match desk.store(picture, svg.as_bytes()) {
        Ok(()) => Answer::Done {
            picture,
            rectangles: rectangle_count(layers),
            masks: layers.len(),
        },
        Err(DeskError::OutOfMemory) => Answer::Refused(Refusal::OutOfMemory),
        Err(_) => Answer::NotStored { picture },
    }
}
