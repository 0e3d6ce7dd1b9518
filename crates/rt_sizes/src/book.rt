//! The entries of a sizes file, found by their numbers.
ghost use Rattle.std.specs.Prelude.{◌≡◌, ℕ, nat_eq, IfOk, Some, None, if◌then◌else◌};
ghost use Rattle.std.specs.Option.{option_or};
ghost use Rattle.indexmap.specs.IndexMap.{get};
ghost use Rattle.rt_sizes.specs.Wishes.{given, wish_of as wish_in};

use indexmap::IndexMap;
use rt_base::OutOfMemory;
use rt_tech::{Sizes, Wish};
use std::alloc::Global;

// The entries of a sizes file by their numbers.
#[derive(Drop)]
pub(crate) struct Book<'a> {
    pub sizes: &'a Sizes,
    pub own: IndexMap<usize, Wish>,
    pub shared: IndexMap<usize, Wish>,
    ghost by_device: { (n : ℕ) → get nat_eq own n ≡ given n sizes.now.devices },
    ghost by_kind: { (n : ℕ) → get nat_eq shared n ≡ given n sizes.now.kinds },
}

// Keeps the sizes of an entry by its number, unless an entry before it has the number.
fn keep(found: &mut IndexMap<usize, Wish>, number: usize, wish: Wish) -> Result<(), OutOfMemory>
    ensures { IfOk result (λ _. (n : ℕ) → get nat_eq found.new n ≡ option_or (get nat_eq found.old n) (if nat_eq n number then Some wish else None)) }
{
    if found.contains_key(&number) {
        return Ok(());
    }
    match found.insert(number, wish) {
        Ok(_) => Ok(()),
        Err(_) => Err(OutOfMemory),
    }
}

// The entries of a list by their numbers.
fn by_number(alloc: Global, entries: &[(u32, Wish)]) -> Result<IndexMap<usize, Wish>, OutOfMemory>
    ensures { IfOk result (λ m. (n : ℕ) → get nat_eq m n ≡ given n entries.now) }
{
    let mut found = IndexMap::new(alloc);
    for (number, wish) in entries {
        keep(&mut found, *number as usize, *wish)?;
    }
    Ok(found)
}

// The entries of the sizes by their numbers.
pub(crate) fn opened<'a>(alloc: Global, sizes: &'a Sizes) -> Result<Book<'a>, OutOfMemory>
    ensures { IfOk result (λ b. b.sizes.now ≡ sizes.now) }
{
    let own = by_number(alloc, sizes.devices.as_slice())?;
    let shared = by_number(alloc, sizes.kinds.as_slice())?;
    Ok(Book { sizes, own, shared })
}

// The sizes of a device: its own, or otherwise its kind's.
pub(crate) fn wish_of(book: &Book, device: usize, kind: u32) -> Option<Wish>
    ensures { result ≡ wish_in book.now.sizes.now device kind }
{
    match book.own.get(&device).copied() {
        Some(wish) => Some(wish),
        None => book.shared.get(&(kind as usize)).copied(),
    }
}
