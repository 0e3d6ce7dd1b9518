//! A run of the program: its words, its answer, its line and its status.
ghost use Rattle.rt_desk.specs.Desk.{OnlySays};
ghost use Rattle.rt_run.specs.Words.{bytes_of};
ghost use Rattle.rt_run.specs.Given.{names_in, contents_in};
ghost use Rattle.rt_run.specs.Answers.{Means, MeansOfNames, MeansOfContents, MeansOfStore, IsBrokenIn, MeansOfRefusal, IsRunOf, IsSilent, Ends, line_of, number_of};

use crate::answer::{Answer, NO_MEMORY, Refusal};
use crate::fetching::{Inputs, fetch_all};
use crate::naming::names_for;
use crate::saying::{has_line, say_answer};
use crate::words::{Retarget, retarget_words};
use rt_arena::Reads;
use rt_base::List;
use rt_desk::{Desk, DeskError};
use rt_retarget::{Fault, Outcome, retarget};
use std::alloc::Global;

/// The exit status of the program.
#[derive(Clone, Copy, Debug, PartialEq, Eq, Drop)]
pub struct Status(pub u8);

/// Runs the program on the words behind its name.
///
/// The one form is `retarget SOURCE STABLE TTABLE SIZES OUT CERT`: it fetches the first four files, and stores the moved
/// cell as OUT. The statuses are 0 where OUT is stored; 2 where the words are of no form; 3 where the source isn't a stream
/// of the format; 4 where a table isn't valid, or the two aren't of one form; 5 where the sizes file isn't valid; 6 where the
/// cell isn't flattened; 7 where the source breaks a rule of its own table; 8 where no positions meet the template of an axis; 11 where a file wasn't fetched; 12 where OUT
/// wasn't stored; 13 where there was no memory; 14 where the flat cell has too many rectangles and labels, or its layout too many strips; and 30 where the
/// files ask for what isn't built yet.
///
/// For each status but 0, 12 and 13 it says one line, which names the place and the cause. Where a say fails no more of the
/// line is said, and the status stands; where there is no memory for it, the status is 13.
#[tactic(auto, using(crate::proofs::MeaningLemmas::means_until, crate::proofs::EndLemmas::silent_ends))]
pub fn run<D: Desk>(alloc: Global, words: &[String], desk: &mut D) -> Status
    ensures { IsRunOf (bytes_of words.now) (D.seen desk.old) (D.seen desk.new) result.0 }
{
    let answer = answer_of(alloc, words, desk);
    say_status(&answer, desk)
}

// Says the line of an answer, and tells the status. A say is never answered that a file is missing or too long.
#[tactic(auto, using(crate::proofs::EndLemmas::nothing_ends, crate::proofs::EndLemmas::said_ends, crate::proofs::EndLemmas::failed_ends, crate::proofs::EndLemmas::no_memory_ends))]
fn say_status<D: Desk>(answer: &Answer<'_>, desk: &mut D) -> Status
    ensures ends { Ends (D.seen desk.old) (D.seen desk.new) (line_of answer.now) (number_of answer.now) result.0 }
    ensures stays { OnlySays (D.seen desk.old) (D.seen desk.new) }
{
    if !has_line(answer) {
        return Status(answer.number());
    }
    match say_answer(answer, desk) {
        Ok(()) => Status(answer.number()),
        Err(DeskError::Failed) => Status(answer.number()),
        Err(DeskError::OutOfMemory) => Status(NO_MEMORY),
        Err(DeskError::Missing | DeskError::TooLong) => unreachable!(),
    }
}

// The answer of a run.
#[tactic(auto, using(crate::proofs::MeaningLemmas::of_names))]
fn answer_of<'a, D: Desk>(alloc: Global, words: &'a [String], desk: &mut D) -> Answer<'a>
    ensures means { Means (bytes_of words.now) (D.seen desk.old) (D.seen desk.new) result }
    ensures silent { IsSilent (D.seen desk.old) (D.seen desk.new) }
{
    match retarget_words(words) {
        Some(names) => retarget_files(alloc, &names, desk),
        None => Answer::Usage,
    }
}

// The answer where the words name the files.
fn retarget_files<'a, D: Desk>(alloc: Global, names: &Retarget<'a>, desk: &mut D) -> Answer<'a>
    ensures means { MeansOfNames (names_in names.now) (D.seen desk.old) (D.seen desk.new) result }
    ensures silent { IsSilent (D.seen desk.old) (D.seen desk.new) }
{
    match fetch_all(alloc, names, desk) {
        Ok(files) => move_cell(alloc, &files, names.out, desk),
        Err(unfetched) => Answer::NotFetched(unfetched),
    }
}

// The answer where the files were fetched: it moves their cell and stores it as `out`.
#[tactic(auto, using(crate::proofs::MeaningLemmas::of_store))]
fn move_cell<'a, D: Desk>(alloc: Global, files: &Inputs, out: &str, desk: &mut D) -> Answer<'a>
    ensures means { MeansOfContents (contents_in files.now) out.now (D.seen desk.old) (D.seen desk.new) result }
    ensures silent { IsSilent (D.seen desk.old) (D.seen desk.new) }
{
    let mut reads = Reads::new(());
    match retarget(
        alloc,
        &files.source,
        &files.stable,
        &files.ttable,
        &files.sizes,
        &mut reads,
    ) {
        Ok(Outcome::Done { gds, .. }) => store_moved(&gds, out, desk),
        Ok(Outcome::Infeasible { axis, .. }) => Answer::Infeasible(axis),
        Err(fault) => refused(alloc, &files.stable, fault),
    }
}

// The answer where the files are refused: a broken rule is named by its masks.
fn refused<'a>(alloc: Global, stable: &[u8], fault: Fault) -> Answer<'a>
    requires { IsBrokenIn stable.now fault }
    ensures { MeansOfRefusal stable.now fault result }
{
    match names_for(alloc, stable, &fault) {
        Ok(names) => Answer::Refused(Refusal { fault, names }),
        Err(_) => Answer::OutOfMemory,
    }
}

// The answer where the cell was moved: it stores the bytes as `out`.
fn store_moved<'a, D: Desk>(gds: &List<u8>, out: &str, desk: &mut D) -> Answer<'a>
    ensures means { MeansOfStore (D.seen desk.old) (D.seen desk.new) out.now gds.now result }
    ensures silent { IsSilent (D.seen desk.old) (D.seen desk.new) }
{
    match desk.store(out, gds.as_slice()) {
        Ok(()) => Answer::Done,
        Err(DeskError::OutOfMemory) => Answer::OutOfMemory,
        Err(_) => Answer::NotStored,
    }
}
