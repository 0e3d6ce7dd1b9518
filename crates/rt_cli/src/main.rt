//! The program: it moves a drawn analog cell from one technology to another, with the words of the process and over real files.
#![tactic(auto)]

use rt_desk::{FileDesk, RefusedStore};
use rt_run::{Status, run};
use std::io::ErrorKind;
use std::process::ExitCode;
use std::{env, io};

// The status where OUT wasn't stored.
const NOT_STORED: Status = Status(rt_run::NOT_STORED);

// The status where there was no memory.
const NO_MEMORY: Status = Status(rt_run::NO_MEMORY);

// The status where the words can't be had, but not for want of memory.
const NO_WORDS: Status = Status(15);

fn main(rt: HostRuntime) -> ExitCode {
    match collect_words(&rt) {
        Ok(words) => {
            let mut desk = FileDesk::new(&rt);
            let status = run(rt.alloc(), words.as_slice(), &mut desk);
            tell_status(&rt, status, desk.refused_store());
            ExitCode::from(status.0)
        }
        Err(error) => {
            let status = tell_no_words(&rt, error.kind());
            ExitCode::from(status.0)
        }
    }
}

// The words behind the program's name.
fn collect_words(rt: &HostRuntime) -> io::Result<Vec<String>> {
    let mut words = Vec::new(rt.alloc());
    for word in env::args(rt)?.skip(1) {
        words.push(word)?;
    }
    Ok(words)
}

// Tells on standard error what a status without a line on standard output leaves unsaid: which file wasn't stored and why,
// or that there was no memory. Where standard error takes nothing, nothing is told.
fn tell_status(rt: &impl Eprint, status: Status, refused: Option<&RefusedStore>) {
    let _ = if status == NO_MEMORY {
        eprintln!(rt; "favrinh: out of memory")
    } else if status == NOT_STORED {
        tell_not_stored(rt, refused)
    } else {
        Ok(())
    };
}

// Tells which file wasn't stored, and why, where it is known. Control characters in its name are escaped.
fn tell_not_stored(rt: &impl Eprint, refused: Option<&RefusedStore>) -> io::Result<()> {
    let Some(store) = refused else {
        return eprintln!(rt; "favrinh: couldn't store a file");
    };
    let name = match &store.name {
        Some(name) => name.as_str(),
        None => "a file",
    };
    match reason(store.kind) {
        Some(reason) => eprintln!(rt; "favrinh: couldn't store {}: {reason}", name.escape_debug()),
        None => eprintln!(rt;
            "favrinh: couldn't store {}: {}",
            name.escape_debug(),
            store.kind
        ),
    }
}

// Why a store fails, where the system's own words would mislead a reader.
fn reason(kind: ErrorKind) -> Option<&'static str> {
    match kind {
        ErrorKind::NotFound => Some("no such folder"),
        ErrorKind::AlreadyExists => Some("each name for a new file beside it is taken"),
        ErrorKind::InvalidFilename => Some("its name is too long"),
        _ => None,
    }
}

// Tells that the words can't be had, and answers the status of that.
fn tell_no_words(rt: &impl Eprint, kind: ErrorKind) -> Status {
    if kind == ErrorKind::OutOfMemory {
        tell_status(rt, NO_MEMORY, None);
        return NO_MEMORY;
    }
    let _ = eprintln!(rt; "favrinh: couldn't read the words of the command: {kind}");
    NO_WORDS
}
