//! How a run ends, and the status of each end.
ghost use Rattle.std.specs.Prelude.{◌≡◌};
ghost use Rattle.rt_run.specs.Answers.{number_of_refusal, number_of_unfetched};

use crate::fetching::Unfetched;
use rt_base::{Axis, List, Text};
use rt_desk::DeskError;
use rt_retarget::Fault;

/// The exit status where OUT wasn't stored.
pub const NOT_STORED: u8 = 12;

/// The exit status where there was no memory.
pub const NO_MEMORY: u8 = 13;

/// A refusal of the files, with what its line needs.
#[derive(Drop)]
pub struct Refusal {
    /// Why they are refused.
    pub fault: Fault,
    /// Of a broken rule the names of its masks in the source's table; of another refusal none.
    pub names: List<Text>,
}

/// How a run ends.
#[derive(Drop)]
pub enum Answer<'a> {
    /// The cell was moved, and OUT holds it.
    Done,
    /// The words are of no form.
    Usage,
    /// The files are refused.
    Refused(Refusal),
    /// No positions meet the template of the axis.
    Infeasible(Axis),
    /// A file wasn't fetched.
    NotFetched(Unfetched<'a>),
    /// OUT wasn't stored.
    NotStored,
    /// There was no memory.
    OutOfMemory,
}

impl<'a> Answer<'a> {
    ghost use Rattle.rt_run.specs.Answers.{number_of};

    /// The exit status of the answer.
    pub fn number(&self) -> u8
        ensures { result ≡ number_of self.now }
    {
        match self {
            Answer::Done => 0,
            Answer::Usage => 2,
            Answer::Refused(refusal) => refusal_number(&refusal.fault),
            Answer::Infeasible(_) => 8,
            Answer::NotFetched(unfetched) => unfetched_number(&unfetched.error),
            Answer::NotStored => NOT_STORED,
            Answer::OutOfMemory => NO_MEMORY,
        }
    }
}

// The exit status of a refusal.
fn refusal_number(fault: &Fault) -> u8
    ensures { result ≡ number_of_refusal fault.now }
{
    match fault {
        Fault::BadStream { .. } => 3,
        Fault::TableToml { .. } | Fault::BadTable { .. } | Fault::TablesDiffer { .. } => 4,
        Fault::SizesToml | Fault::BadSizes { .. } => 5,
        Fault::Unsupported { .. }
        | Fault::NoSuchStructure { .. }
        | Fault::Cyclic { .. }
        | Fault::UnmappedLayer { .. }
        | Fault::ArrayStep { .. }
        | Fault::CoordinateRange { .. }
        | Fault::TooDeep => 6,
        Fault::SourceShape { .. } | Fault::SourceRule { .. } => 7,
        Fault::OutOfMemory => NO_MEMORY,
        Fault::TooMany { .. } => 14,
        Fault::NotBuilt => 30,
    }
}

// The exit status where a file wasn't fetched, by the error of the fetch.
fn unfetched_number(error: &DeskError) -> u8
    ensures { result ≡ number_of_unfetched error.now }
{
    match error {
        DeskError::Failed | DeskError::Missing | DeskError::TooLong => 11,
        DeskError::OutOfMemory => NO_MEMORY,
    }
}
