//! The walk over what structures place.
ghost use Rattle.std.specs.Prelude.{◌≡◌, ◌+◌, ◌^◌, ◌<◌, ◌≤◌, [], ◌∷◌, ◌++◌, None, Some, length, drop, slice_get, All, IfOk, IfErr, OnOk};
ghost use Rattle.gds_flat.specs.Walking.{IsFirst, name_at, names_at, elements_at, opens, IsWalk, HasWalked, work_left, StopsWith, IsNext};

use crate::error::Stop;
use crate::names::Names;
use crate::orders::{find, target};
use gds_stream::{Element, Structure};
use rt_base::{List, OutOfMemory, Text};
use std::alloc::Global;

// What the walk knows of a structure.
#[derive(Clone, Copy, Drop)]
pub(crate) enum Mark {
    // It isn't reached yet.
    Unseen,
    // It is reached, and stands in the frames at this place.
    Open(usize),
    // All that it places is walked, and it stands in the finish at this place.
    Done(usize),
}

// A structure that is being walked, and the place of its next element.
#[derive(Clone, Copy, Drop)]
pub(crate) struct Frame {
    pub structure: usize,
    pub next: usize,
}

// A walk over what structures place.
#[derive(Drop)]
pub(crate) struct Walk {
    // The structures that are being walked, the innermost last.
    pub frames: Vec<Frame>,
    // What is known of each structure.
    pub marks: Vec<Mark>,
    // The structures that are reached, in the order in which they were.
    pub order: Vec<usize>,
    // The structures that are done, each behind all that it places, unless there is a circle.
    pub finish: Vec<usize>,
    // The first circle.
    pub circle: Option<List<usize>>,
}

// Walks from the top.
pub(crate) fn walked(alloc: Global, names: &Names) -> Result<Walk, Stop>
    ensures ok { IfOk result (HasWalked names.now.structures.now names.now.top.now) }
    ensures err { IfErr result (StopsWith names.now.structures.now names.now.top.now) }
{
    let mut walk = begun(alloc, names)?;
    take(alloc, &mut walk, names, names.top)?;
    run(alloc, &mut walk, names)?;
    Ok(walk)
}

// A walk in which nothing is reached yet.
fn begun(alloc: Global, names: &Names) -> Result<Walk, OutOfMemory>
    ensures { IfOk result (λ w. IsWalk names.now.structures.now names.now.top.now (names.now.top.now ∷ []) w.frames.items w) }
{
    let marks = vec![in alloc; Mark::Unseen; names.structures.len()]?;
    Ok(Walk {
        frames: Vec::new(alloc),
        marks,
        order: Vec::new(alloc),
        finish: Vec::new(alloc),
        circle: None,
    })
}

// Walks on to the end.
fn run(alloc: Global, walk: &mut Walk, names: &Names) -> Result<(), Stop>
    requires { IsWalk names.now.structures.now names.now.top.now [] walk.old.frames.items walk.old }
    ensures ok { OnOk result (IsWalk names.now.structures.now names.now.top.now [] [] walk.new) }
    ensures err { IfErr result (StopsWith names.now.structures.now names.now.top.now) }
{
    while let Some(frame) = walk.frames.pop() {
        advance(alloc, walk, names, &frame)?;
    }
    Ok(())
}

// Takes the next element of the innermost frame, which was taken from the frames.
fn advance(alloc: Global, walk: &mut Walk, names: &Names, frame: &Frame) -> Result<(), Stop>
    requires { IsWalk names.now.structures.now names.now.top.now [] (walk.old.frames.items ++ frame.now ∷ []) walk.old }
    ensures ok { OnOk result (IsWalk names.now.structures.now names.now.top.now [] walk.new.frames.items walk.new) }
    ensures less { OnOk result (work_left names.now.structures.now walk.new.frames.items walk.new.marks.items
        < work_left names.now.structures.now (walk.old.frames.items ++ frame.now ∷ []) walk.old.marks.items) }
    ensures err { IfErr result (StopsWith names.now.structures.now names.now.top.now) }
{
    let elements = names.structures[frame.structure].elements.as_slice();
    match elements.get(frame.next) {
        Some(element) => go_on(alloc, walk, names, frame, element),
        None => {
            close(walk, names, frame)?;
            Ok(())
        }
    }
}

// Goes on by the next element of the innermost frame, which was taken from the frames.
fn go_on(
    alloc: Global,
    walk: &mut Walk,
    names: &Names,
    frame: &Frame,
    element: &Element,
) -> Result<(), Stop>
    requires walk { IsWalk names.now.structures.now names.now.top.now [] (walk.old.frames.items ++ frame.now ∷ []) walk.old }
    requires next { slice_get (elements_at names.now.structures.now frame.now.structure) frame.now.next ≡ Some element.now }
    requires fits { frame.now.next + 1 < 2 ^ 64 }
    ensures ok { OnOk result (IsWalk names.now.structures.now names.now.top.now [] walk.new.frames.items walk.new) }
    ensures less { OnOk result (work_left names.now.structures.now walk.new.frames.items walk.new.marks.items
        < work_left names.now.structures.now (walk.old.frames.items ++ frame.now ∷ []) walk.old.marks.items) }
    ensures err { IfErr result (StopsWith names.now.structures.now names.now.top.now) }
{
    walk.frames.push(Frame {
        structure: frame.structure,
        next: frame.next + 1,
    })?;
    match target(element) {
        Some(name) => take(alloc, walk, names, name),
        None => Ok(()),
    }
}

// Ends the innermost frame, which was taken from the frames and has nothing left.
fn close(walk: &mut Walk, names: &Names, frame: &Frame) -> Result<(), OutOfMemory>
    requires walk { IsWalk names.now.structures.now names.now.top.now [] (walk.old.frames.items ++ frame.now ∷ []) walk.old }
    requires over { length (elements_at names.now.structures.now frame.now.structure) ≤ frame.now.next }
    ensures ok { OnOk result (IsWalk names.now.structures.now names.now.top.now [] walk.new.frames.items walk.new) }
    ensures less { OnOk result (work_left names.now.structures.now walk.new.frames.items walk.new.marks.items
        < work_left names.now.structures.now (walk.old.frames.items ++ frame.now ∷ []) walk.old.marks.items) }
{
    walk.marks[frame.structure] = Mark::Done(walk.finish.len());
    walk.finish.push(frame.structure)?;
    Ok(())
}

// Takes a name that the innermost frame places, or the top's.
fn take(alloc: Global, walk: &mut Walk, names: &Names, name: &Text) -> Result<(), Stop>
    requires { IsWalk names.now.structures.now names.now.top.now (name.now ∷ []) walk.old.frames.items walk.old }
    ensures ok { OnOk result (IsWalk names.now.structures.now names.now.top.now [] walk.new.frames.items walk.new) }
    ensures less { OnOk result (work_left names.now.structures.now walk.new.frames.items walk.new.marks.items
        ≤ work_left names.now.structures.now walk.old.frames.items walk.old.marks.items) }
    ensures err { IfErr result (StopsWith names.now.structures.now names.now.top.now) }
{
    match find(names, name) {
        Some(structure) => {
            visit(alloc, walk, names, structure)?;
            Ok(())
        }
        None => Err(Stop::Unnamed(name.copy(alloc)?)),
    }
}

// Takes a structure that the innermost frame places, or the top.
fn visit(alloc: Global, walk: &mut Walk, names: &Names, structure: usize) -> Result<(), OutOfMemory>
    requires walk { IsWalk names.now.structures.now names.now.top.now (name_at names.now.structures.now structure ∷ []) walk.old.frames.items walk.old }
    requires first { IsFirst names.now.structures.now structure }
    ensures ok { OnOk result (IsWalk names.now.structures.now names.now.top.now [] walk.new.frames.items walk.new) }
    ensures less { OnOk result (work_left names.now.structures.now walk.new.frames.items walk.new.marks.items
        ≤ work_left names.now.structures.now walk.old.frames.items walk.old.marks.items) }
{
    match walk.marks[structure] {
        Mark::Unseen => open(walk, names, structure),
        Mark::Open(place) => remember(alloc, walk, names, place, structure),
        Mark::Done(_) => Ok(()),
    }
}

// Begins a frame for a structure that wasn't reached before.
fn open(walk: &mut Walk, names: &Names, structure: usize) -> Result<(), OutOfMemory>
    requires walk { IsWalk names.now.structures.now names.now.top.now (name_at names.now.structures.now structure ∷ []) walk.old.frames.items walk.old }
    requires unseen { IsNext names.now.structures.now walk.old.marks.items structure Mark.Unseen }
    ensures ok { OnOk result (IsWalk names.now.structures.now names.now.top.now [] walk.new.frames.items walk.new) }
    ensures less { OnOk result (work_left names.now.structures.now walk.new.frames.items walk.new.marks.items
        ≤ work_left names.now.structures.now walk.old.frames.items walk.old.marks.items) }
{
    walk.marks[structure] = Mark::Open(walk.frames.len());
    walk.order.push(structure)?;
    walk.frames.push(Frame { structure, next: 0 })?;
    Ok(())
}

// Remembers the circle from a frame up to the innermost one and back, if it is the first.
fn remember(
    alloc: Global,
    walk: &mut Walk,
    names: &Names,
    place: usize,
    structure: usize,
) -> Result<(), OutOfMemory>
    requires walk { IsWalk names.now.structures.now names.now.top.now (name_at names.now.structures.now structure ∷ []) walk.old.frames.items walk.old }
    requires open { IsNext names.now.structures.now walk.old.marks.items structure (Mark.Open place) }
    ensures ok { OnOk result (IsWalk names.now.structures.now names.now.top.now [] walk.new.frames.items walk.new) }
    ensures less { OnOk result (work_left names.now.structures.now walk.new.frames.items walk.new.marks.items
        ≤ work_left names.now.structures.now walk.old.frames.items walk.old.marks.items) }
{
    if walk.circle.is_some() {
        return Ok(());
    }
    let circle = circle(alloc, &walk.frames, place, structure)?;
    walk.circle = Some(circle);
    Ok(())
}

// The structures of the frames from a place on, and the structure.
fn circle(
    alloc: Global,
    frames: &[Frame],
    place: usize,
    structure: usize,
) -> Result<List<usize>, OutOfMemory>
    requires { place < length frames.now }
    ensures { IfOk result (λ c. c ≡ opens (drop place frames.now) ++ structure ∷ []) }
{
    let mut circle = List::new(alloc);
    for frame in &frames[place..] {
        circle.push(frame.structure)?;
    }
    circle.push(structure)?;
    Ok(circle)
}

// The names of the structures.
pub(crate) fn names_of(
    alloc: Global,
    structures: &[Structure],
    places: &[usize],
) -> Result<List<Text>, OutOfMemory>
    requires { All (λ k. k < length structures.now) places.now }
    ensures { IfOk result (λ names. names ≡ names_at structures.now places.now) }
{
    let mut names = List::new(alloc);
    for place in places {
        names.push(structures[*place].name.copy(alloc)?)?;
    }
    Ok(names)
}
