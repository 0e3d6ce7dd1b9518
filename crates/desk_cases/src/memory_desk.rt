//! A desk in memory answers, and fails as it is planned to.
use rt_desk::{Desk, DeskError, MemoryDesk, names_differ};
use std::alloc::{AllocError, Global};
use std::test::Fail;

#[derive(Drop)]
enum Call {
    Fetch(&'static str, u64),
    Store(&'static str, &'static [u8]),
    Say(&'static [u8]),
}

// Two files of one name, of which the first is taken away; then calls 6, 7 and 8 are planned to fail.
static CALLS: [(Call, Result<&'static [u8], DeskError>); 12] = [
    (Call::Fetch("a", 2), Ok(b"hi")),
    (Call::Fetch("a", 1), Err(DeskError::TooLong)),
    (Call::Fetch("b", 9), Err(DeskError::Missing)),
    (Call::Store("b", b"new"), Ok(b"")),
    (Call::Fetch("b", 3), Ok(b"new")),
    (Call::Store("a", b""), Ok(b"")),
    (Call::Fetch("a", 9), Err(DeskError::Failed)),
    (Call::Store("a", b"x"), Err(DeskError::Failed)),
    (Call::Say(b"y"), Err(DeskError::Failed)),
    (Call::Say(b"one"), Ok(b"")),
    (Call::Say(b"two"), Ok(b"")),
    (Call::Fetch("a", 0), Ok(b"")),
];

// Whether the call answers what is wanted; a store and a say give no bytes.
fn answers(
    desk: &mut MemoryDesk,
    alloc: Global,
    call: &Call,
    want: &Result<&[u8], DeskError>,
) -> bool {
    let answer = match call {
        Call::Fetch(name, most) => desk.fetch(alloc, name, *most),
        Call::Store(name, bytes) => desk.store(name, bytes).map(|()| Vec::new(alloc)),
        Call::Say(bytes) => desk.say(bytes).map(|()| Vec::new(alloc)),
    };
    match (&answer, want) {
        (Ok(bytes), Ok(wanted)) => bytes.as_slice() == *wanted,
        (Err(error), Err(wanted)) => error == wanted,
        _ => false,
    }
}

fn named(alloc: Global, name: &str, bytes: &[u8]) -> Result<(String, Vec<u8>), AllocError> {
    let bytes = Vec::from_slice(alloc, bytes)?;
    Ok((String::from_str(alloc, name)?, bytes))
}

#[test]
fn answers_and_fails_as_planned(rt: HostRuntime) -> Result<(), Fail> {
    let alloc = rt.alloc();
    let mut files = Vec::new(alloc);
    files.push(named(alloc, "a", b"twice")?)?;
    files.push(named(alloc, "a", b"hi")?)?;
    assert!(rt; !names_differ(&files));
    files.remove(0);
    assert!(rt; names_differ(&files));
    let mut desk = MemoryDesk::new(alloc, files);
    for nth in [6, 7, 8] {
        desk.fail_at(nth)?;
    }
    for (nth, (call, want)) in CALLS.iter().enumerate() {
        assert!(rt; answers(&mut desk, alloc, call, want), "call {nth}");
    }
    assert_eq!(rt; desk.said(), b"onetwo".as_slice());
    assert_eq!(rt; desk.file("b"), Some(b"new".as_slice()));
    assert!(rt; desk.file("c").is_none());
    Ok(())
}
