//! The order in which a template lists its names.
ghost use Rattle.std.specs.Prelude.{◌≡◌, ◌<◌, length, IfOk, MatchBool};
ghost use Rattle.rt_rows.specs.Order.{place_of, ComesBefore, ArePutInOrder};
ghost use Rattle.rt_rows.specs.Keys.{key_of, IsUpwards, IsSortedOf, IsNew, IsRepeat};

use crate::name::Name;
use rt_base::{List, OutOfMemory};
use std::alloc::Global;

/// The same names in the order of the templates, each once: by the kinds of names, and then by their numbers from the left.
/// The one error is a want of memory. (This project's own.)
pub fn put_in_order(alloc: Global, names: List<Name>) -> Result<List<Name>, OutOfMemory>
    ensures { IfOk result (ArePutInOrder names) }
{
    let sorted = sorted(alloc, names.as_slice())?;
    each_once(alloc, sorted.as_slice())
}

// The same names, none before one that it comes behind.
fn sorted(alloc: Global, names: &[Name]) -> Result<Vec<Name>, OutOfMemory>
    ensures { IfOk result (λ sorted. IsSortedOf names.now sorted.items) }
{
    let mut sorted: Vec<Name> = names.iter().copied().collect(alloc)?;
    sorted.sort_by_key(|name| place(name))?;
    Ok(sorted)
}

// Names in order without those that repeat the one before them.
fn each_once(alloc: Global, names: &[Name]) -> Result<List<Name>, OutOfMemory>
    requires { IsUpwards names.now }
    ensures { IfOk result (ArePutInOrder names.now) }
{
    let mut kept = List::new(alloc);
    for i in 0..names.len() {
        if is_new(names, i) {
            kept.push(names[i])?;
        }
    }
    Ok(kept)
}

// Whether the name of that number comes behind the one before it, if there is one.
fn is_new(names: &[Name], i: usize) -> bool
    requires { i < length names.now }
    ensures { MatchBool result (IsNew names.now i) (IsRepeat names.now i) }
{
    if i == 0 {
        return true;
    }
    comes_before(&names[i - 1], &names[i])
}

// Whether the first name stands before the second.
fn comes_before(first: &Name, second: &Name) -> bool
    ensures { MatchBool result (ComesBefore first.now second.now) (¬ ComesBefore first.now second.now) }
{
    place(first) < place(second)
}

// Where a name stands: the place of its kind in the list of kinds, and its numbers from the left.
fn place(name: &Name) -> (u32, u32, u32, u32)
    ensures { result ≡ key_of (place_of name.now) }
{
    match *name {
        Name::Lo(i) => (0, i, 0, 0),
        Name::Hi(i) => (1, i, 0, 0),
        Name::Zero => (2, 0, 0, 0),
        Name::Top => (3, 0, 0, 0),
        Name::Wide(i) => (4, i, 0, 0),
        Name::Tall(i) => (5, i, 0, 0),
        Name::Size(i) => (6, i, 0, 0),
        Name::Ll(i, j) => (7, i, j, 0),
        Name::Rr(i, j) => (8, i, j, 0),
        Name::Share(i, j) => (9, i, j, 0),
        Name::On(i, j) => (10, i, j, 0),
        Name::Under(i, j) => (11, i, j, 0),
        Name::Gap(i, j) => (12, i, j, 0),
        Name::Run(i, j) => (13, i, j, 0),
        Name::Off(i, j, k) => (14, i, j, k),
        Name::Inl(i, j, k) => (15, i, j, k),
        Name::Inr(i, j, k) => (16, i, j, k),
        Name::Inb(i, j, k) => (17, i, j, k),
        Name::Int(i, j, k) => (18, i, j, k),
        Name::Chl(i, j) => (19, i, j, 0),
        Name::Chr(i, j) => (20, i, j, 0),
        Name::Chb(i, j) => (21, i, j, 0),
        Name::Cht(i, j) => (22, i, j, 0),
        Name::Eql(i, j) => (23, i, j, 0),
        Name::Eqr(i, j) => (24, i, j, 0),
        Name::Eqb(i, j) => (25, i, j, 0),
        Name::Eqt(i, j) => (26, i, j, 0),
        Name::MirLo(i, j) => (27, i, j, 0),
        Name::MirHi(i, j) => (28, i, j, 0),
        Name::SameB(i, j) => (29, i, j, 0),
        Name::SameT(i, j) => (30, i, j, 0),
    }
}
