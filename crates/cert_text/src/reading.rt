//! The claim that a text tells.
ghost use Rattle.std.specs.Prelude.{length, IfOk};
ghost use Rattle.cert_lines.specs.Guesses.{bytes_of};
ghost use Rattle.cert_text.specs.Texts.{IsCertificate};
ghost use Rattle.cert_text.specs.Taking.{IsOnly, AreOnly, AreLinesOf, IsClaimOf, Reads};

use crate::building::claim_of;
use crate::cert_error::CertError;
use crate::checking::{first_bad_line, parts_of};
use crate::claim::Claim;
use cert_lines::{Line, read_line};
use rt_base::{List, OutOfMemory};
use std::alloc::Global;

/// The claim of which this is the text: the one claim in form with its numbers within the limits. `BadCert` exactly where the text is that of no such
/// claim, with the number of its first bad line, as `first_bad_line` has it; `OutOfMemory` only for want of memory. (The format is this project's own.)
pub fn read_cert(alloc: Global, text: &[u8]) -> Result<Claim, CertError>
    ensures { Reads text.now result }
{
    match first_bad_line(alloc, text)? {
        Some(line) => Err(CertError::BadCert { line }),
        None => {
            let claim = claim_in(alloc, text)?;
            Ok(claim)
        }
    }
}

// The claim of the text of a claim.
fn claim_in(alloc: Global, text: &[u8]) -> Result<Claim, OutOfMemory>
    requires { IsCertificate text.now }
    ensures { IfOk result (λ claim. IsClaimOf text.now claim) }
{
    let lines = lines_of(alloc, text)?;
    let claim = claim_of(alloc, lines.as_slice())?;
    Ok(claim)
}

// The lines of the text of lines.
fn lines_of(alloc: Global, text: &[u8]) -> Result<List<Line>, OutOfMemory>
    ensures { IfOk result (λ lines. AreLinesOf text.now lines) }
{
    let parts = parts_of(alloc, text)?;
    match parts.as_slice().split_last() {
        Some((_last, whole)) => {
            let lines = lines_among(alloc, whole)?;
            Ok(lines)
        }
        None => Ok(List::new(alloc)),
    }
}

// The line that each text is.
fn lines_among(alloc: Global, texts: &[&[u8]]) -> Result<List<Line>, OutOfMemory>
    ensures { IfOk result (λ lines. AreOnly (bytes_of texts.now) (length texts.now) lines) }
{
    let mut lines = List::new(alloc);
    for i in 0..texts.len() {
        let line = line_in(alloc, texts[i])?;
        lines.push(line)?;
    }
    Ok(lines)
}

// The line that the text is, or the title where it is none.
fn line_in(alloc: Global, text: &[u8]) -> Result<Line, OutOfMemory>
    ensures { IfOk result (λ line. IsOnly text.now line) }
{
    match read_line(alloc, text)? {
        Some(line) => Ok(line),
        None => Ok(Line::Title),
    }
}
