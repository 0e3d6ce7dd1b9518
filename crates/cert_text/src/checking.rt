//! Where a text stops being a certificate.
ghost use Rattle.std.specs.Prelude.{◌≡◌, ◌≢◌, ◌^◌, ◌<◌, ◌++◌, ◌==◌, [], All, MatchBool, MatchOption, IfOk};
ghost use Rattle.std.specs.List.{flat_map, slice_split};
ghost use Rattle.cert_lines.specs.Guesses.{bytes_of};
ghost use Rattle.cert_text.specs.Stages.{trees_in};
ghost use Rattle.cert_text.specs.Reached.{IsOver, IsOpen, IsEnd, IsNoEnd, IsStep};
ghost use Rattle.cert_text.specs.Texts.{IsCertificate, IsBadAt, IsOneLine, ended};

use crate::stage::{Stage, next};
use cert_lines::read_line;
use rt_base::OutOfMemory;
use std::alloc::{AllocError, Global};

/// The number of the first line, from 1, with which the text stops being a certificate, or None exactly where it is the text of a claim in form with its
/// numbers within the limits. Up to the line before, the text goes on as that of some such claim, and with the line it doesn't: the line is none, it
/// can't stand there, it stands behind the end, or it has no line feed. Where all lines can stand and more are wanted, it is the number of the line that
/// is missing. The one error is a want of memory. (The format is this project's own.)
pub fn first_bad_line(alloc: Global, text: &[u8]) -> Result<Option<u64>, OutOfMemory>
    ensures { IfOk result (λ bad. MatchOption bad (IsCertificate text.now) (λ number. IsBadAt text.now number)) }
{
    let parts = parts_of(alloc, text)?;
    match parts.as_slice().split_last() {
        Some((last, whole)) => bad_among(alloc, whole, last),
        None => bad_among(alloc, &[], text),
    }
}

/// The parts of a text between its line feeds.
pub fn parts_of(alloc: Global, text: &[u8]) -> Result<Vec<&[u8]>, AllocError>
    ensures { IfOk result (λ parts. bytes_of parts.items ≡ slice_split (λ byte. byte == 10) text.now) }
{
    text.split(|byte| *byte == b'\n').collect(alloc)
}

// The number of the first line that is bad, of whole lines and of what stands behind the last line feed.
fn bad_among(alloc: Global, whole: &[&[u8]], last: &[u8]) -> Result<Option<u64>, OutOfMemory>
    requires each { All IsOneLine (bytes_of whole.now) }
    requires rest { IsOneLine last.now }
    ensures { IfOk result (λ bad. MatchOption bad (IsCertificate (flat_map ended (bytes_of whole.now) ++ last.now)) (λ number. IsBadAt (flat_map ended (bytes_of whole.now) ++ last.now) number)) }
{
    let mut stage = Stage::Title;
    for i in 0..whole.len() {
        match step(alloc, &stage, whole[i])? {
            Some(new) => stage = new,
            None => return Ok(Some(i as u64 + 1)),
        }
    }
    if is_end(&stage, last) {
        Ok(None)
    } else {
        Ok(Some(whole.len() as u64 + 1))
    }
}

// The stage behind the line that the text is, or None where it is no line or can't stand here.
fn step(alloc: Global, stage: &Stage, text: &[u8]) -> Result<Option<Stage>, OutOfMemory>
    requires { trees_in stage.now < 2 ^ 63 }
    ensures { IfOk result (λ new. IsStep stage.now text.now new) }
{
    match read_line(alloc, text)? {
        Some(line) => Ok(next(stage, &line)),
        None => Ok(None),
    }
}

// Whether nothing more is wanted, and nothing stands behind the last line feed.
fn is_end(stage: &Stage, last: &[u8]) -> bool
    ensures { MatchBool result (IsEnd stage.now last.now) (IsNoEnd stage.now last.now) }
{
    if is_over(stage) {
        last.is_empty()
    } else {
        false
    }
}

// Whether nothing more is wanted.
fn is_over(stage: &Stage) -> bool
    ensures { MatchBool result (IsOver stage.now) (IsOpen stage.now) }
{
    matches!(*stage, Stage::Over)
}
