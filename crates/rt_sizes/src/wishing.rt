ghost use Rattle.std.specs.Prelude.{◌≡◌, IfOk, IfErr, is_some, Some, None, false};
ghost use Rattle.std.specs.Fmt.{decimal};
ghost use Rattle.rt_sizes.specs.Refusals.{RefusesSizes};
ghost use Rattle.rt_keys.specs.Faults.{Reads, Stops, test};
ghost use Rattle.rt_sizes.specs.Wishes.{wish_of as wish_in, stray_fault, lacking_fault, wishes_fault, AreWishes, wished_from};

use crate::book::{Book, opened, wish_of};
use itoa::Buffer;
use rt_base::List;
use rt_keys::TableError;
use rt_keys::stop::{Stop, at, at_entry, bad_sizes, refused, tested};
use rt_tech::{Sizes, TableCause, Wish};
use std::alloc::Global;

// Refuses an entry for a device that isn't there.
fn strays(alloc: Global, devices: &[(u32, Wish)], count: usize) -> Result<(), Stop>
    ensures { Reads result (stray_fault count 0 devices.now) (λ _. Unit {0}) }
{
    for (i, (index, _)) in devices.iter().enumerate() {
        let known = tested(alloc, "index", TableCause::Range, (*index as usize) < count);
        at_entry(alloc, i, known)?;
    }
    Ok(())
}

// The device has no sizes.
fn lacking(alloc: Global, device: usize) -> Stop
    ensures { Stops result (test (decimal device) TableCause.Missing false) }
{
    let mut digits = Buffer::new();
    refused(alloc, digits.format(device), TableCause::Missing)
}

// The sizes of a device, which has some.
fn wish_at(alloc: Global, book: &Book, device: usize, kind: u32) -> Result<Wish, Stop>
    ensures { Reads result (test (decimal device) TableCause.Missing (is_some (wish_in book.now.sizes.now device kind))) (λ w. wish_in book.now.sizes.now device kind ≡ Some w) }
{
    match wish_of(book, device, kind) {
        Some(wish) => Ok(wish),
        None => Err(lacking(alloc, device)),
    }
}

// The sizes of each device, of which the list has the kinds.
#[tactic(auto, unfolding(crate::specs::Wishes::AreWishes))]
fn wished(alloc: Global, book: &Book, kinds: &[u32]) -> Result<List<Wish>, Stop>
    ensures { Reads result (lacking_fault book.now.sizes.now 0 kinds.now) (AreWishes book.now.sizes.now kinds.now) }
{
    let mut wishes = List::new(alloc);
    for (device, kind) in kinds.iter().enumerate() {
        let wish = wish_at(alloc, book, device, *kind)?;
        if wishes.push(wish).is_err() {
            return Err(Stop::OutOfMemory);
        }
    }
    Ok(wishes)
}

// The sizes of each device, once no entry is for a device that isn't there.
#[tactic(auto, unfolding(crate::specs::Wishes::wishes_fault))]
fn checked(alloc: Global, sizes: &Sizes, kinds: &[u32]) -> Result<List<Wish>, Stop>
    ensures { Reads result (wishes_fault sizes.now kinds.now) (AreWishes sizes.now kinds.now) }
{
    at(
        alloc,
        "device",
        strays(alloc, sizes.devices.as_slice(), kinds.len()),
    )?;
    let Ok(book) = opened(alloc, sizes) else {
        return Err(Stop::OutOfMemory);
    };
    at(alloc, "device", wished(alloc, &book, kinds))
}

/// The sizes of each device, by a sizes file and the devices' kinds as numbers in the target table. A device's own
/// entry goes before its kind's. BadSizes with Range at `device.N.index` is the first entry whose device isn't there,
/// and otherwise with Missing at `device.K` the first device without sizes. (This project's own.)
pub fn wishes(alloc: Global, sizes: &Sizes, kinds: &[u32]) -> Result<List<Wish>, TableError>
    ensures ok { IfOk result (λ wishes. (wishes_fault sizes.now kinds.now ≡ None) × AreWishes sizes.now kinds.now wishes) }
    ensures err { IfErr result (RefusesSizes (wishes_fault sizes.now kinds.now)) }
{
    match checked(alloc, sizes, kinds) {
        Ok(wishes) => Ok(wishes),
        Err(stop) => Err(bad_sizes(alloc, stop)),
    }
}
