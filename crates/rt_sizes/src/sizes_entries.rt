//! The sizes of kinds and of devices in a sizes file.
ghost use Rattle.std.specs.Prelude.{◌≡◌, ℕ, Option, Some, None, MatchOption, codes};
ghost use Rattle.toml.specs.Data.{Members};
ghost use Rattle.toml.specs.View.{view, table_view, items_view};
ghost use Rattle.rt_tech.specs.Tech.{IsGrid};
ghost use Rattle.rt_keys.specs.declared.stop.Fault.{Fault as FaultValue};
ghost use Rattle.rt_keys.specs.Faults.{Reads};
ghost use Rattle.rt_sizes.specs.SizesFile.{in_target, sized_fault, entry_fault, entry_sizes, kind_from, kind_name_fault, kind_number, kinds_there as kinds_there_fault, kinds_fault, kinds_of, index_fault, index_told, devices_there as devices_there_fault, devices_fault, devices_of, wish_fault, wish_at};

use rt_base::List;
use rt_keys::entries::{Entry, entries};
use rt_keys::finding::{find, is_first, names};
use rt_keys::indexes::{INDEX_LIMIT, Indexes, by_index, find_index};
use rt_keys::keys::{entry_table, has, list, others, word};
use rt_keys::names::Names;
use rt_keys::numbers::{length, number_within};
use rt_keys::scale::Scale;
use rt_keys::stop::{Stop, at, refused, tested};
use rt_tech::{Kind, TableCause, Tech, Which, Wish};
use std::alloc::Global;
use toml::{Table, Value};

// How an entry tells for what its sizes are: by one key, at its place in a list.
trait Told {
    ghost fault: { Self → ℕ → Members → Option FaultValue };

    ghost number: { Self → Members → ℕ };

    fn number(&self, alloc: Global, place: usize, entry: &Table) -> Result<u32, Stop>
        ensures { Reads result (fault self.now place (table_view entry.now)) (λ n. n ≡ number self.now (table_view entry.now)) };
}

// The first kind by a name, with its number.
fn kind_named<'a>(kinds: &'a [Kind], name: &str) -> Option<(usize, &'a Kind)>
    ensures { MatchOption result (kind_from 0 name.now kinds.now ≡ None) (λ p. kind_from 0 name.now kinds.now ≡ Some (p.0, p.1.now)) }
{
    for (i, kind) in kinds.iter().enumerate() {
        if kind.name.as_slice() == name.as_bytes() {
            return Some((i, kind));
        }
    }
    None
}

// The length and the width of an entry, in steps of the target.
#[tactic(auto, unfolding(crate::specs::SizesFile::wish_fault))]
fn wish(alloc: Global, target: &Tech, entry: &Table) -> Result<Wish, Stop>
    requires { IsGrid target.now.grid }
    ensures { Reads result (wish_fault (in_target target.now) (table_view entry.now)) (λ w. w ≡ wish_at (in_target target.now) (table_view entry.now)) }
{
    let scale = Scale {
        which: Which::Target,
        grid: target.grid,
    };
    let long = length(alloc, entry, "length", &scale, 1)?;
    let wide = length(alloc, entry, "width", &scale, 1)?;
    Ok(Wish {
        length: long,
        width: wide,
    })
}

// How an entry of a list is read, whose key tells for what its sizes are.
#[derive(Drop)]
struct SizesRule<'a, T> {
    target: &'a Tech,
    key: &'a str,
    told: &'a T,
    ghost grid_in_range: { IsGrid target.now.grid },
}

// The sizes of an entry, by the number of what they are for.
#[tactic(auto, unfolding(crate::specs::SizesFile::sized_fault))]
fn sized<T: Told>(
    alloc: Global,
    rule: &SizesRule<T>,
    place: usize,
    entry: &Table,
) -> Result<(u32, Wish), Stop>
    ensures { Reads result (sized_fault rule.now.target.now rule.now.key.now (T.fault rule.now.told.now) place (table_view entry.now)) (λ p. p ≡ (T.number rule.now.told.now (table_view entry.now), wish_at (in_target rule.now.target.now) (table_view entry.now))) }
{
    let number = rule.told.number(alloc, place, entry)?;
    let wish = wish(alloc, rule.target, entry)?;
    others(alloc, entry, &[rule.key, "length", "width"])?;
    Ok((number, wish))
}

impl<T: Told> Entry for SizesRule<'_, T> {
    type Item = (u32, Wish);

    ghost fault = { λ rule. entry_fault rule.target.now rule.key.now (T.fault rule.told.now) };

    ghost gives = { λ rule. entry_sizes rule.target.now (T.number rule.told.now) };

    #[tactic(auto, unfolding(crate::specs::SizesFile::entry_fault, crate::specs::SizesFile::entry_sizes))]
    fn read(
        &self,
        alloc: Global,
        before: &[(u32, Wish)],
        value: &Value,
    ) -> Result<(u32, Wish), Stop> {
        let table = entry_table(alloc, value)?;
        let sizes = sized(alloc, self, before.len(), table)?;
        Ok(sizes)
    }
}

// The kinds of a target, named by entries with these names.
#[derive(Drop)]
struct KindNames<'a> {
    target: &'a Tech,
    names: Names<'a>,
}

impl Told for KindNames<'_> {
    ghost fault = { λ told place. kind_name_fault told.target.now place (items_view told.names.values.now) };

    ghost number = { λ told. kind_number told.target.now };

    #[tactic(auto, unfolding(crate::specs::SizesFile::kind_name_fault))]
    fn number(&self, alloc: Global, place: usize, entry: &Table) -> Result<u32, Stop> {
        let name = word(alloc, entry, "name")?;
        tested(
            alloc,
            "name",
            TableCause::Duplicate,
            is_first(place, find(&self.names, name)),
        )?;
        let Some((number, kind)) = kind_named(self.target.kinds.as_slice(), name) else {
            return Err(refused(alloc, "name", TableCause::Name));
        };
        tested(alloc, "name", TableCause::Role, kind.device)?;
        match u32::try_from(number) {
            Ok(number) => Ok(number),
            Err(_) => Err(Stop::OutOfMemory),
        }
    }
}

// The sizes of kinds, which the file has.
#[tactic(auto, unfolding(crate::specs::SizesFile::kinds_there))]
fn kinds_there(alloc: Global, target: &Tech, file: &Table) -> Result<List<(u32, Wish)>, Stop>
    requires { IsGrid target.now.grid }
    ensures { Reads result (kinds_there_fault target.now (table_view file.now)) (λ l. l ≡ kinds_of target.now (table_view file.now)) }
{
    let values = list(alloc, file, "kind")?.as_slice();
    let names = names(alloc, values)?;
    let told = KindNames { target, names };
    let rule = SizesRule {
        target,
        key: "name",
        told: &told,
    };
    at(alloc, "kind", entries(alloc, &rule, values))
}

// The sizes of kinds, where the file has some.
#[tactic(auto, unfolding(crate::specs::SizesFile::kinds_fault))]
pub(crate) fn kinds(alloc: Global, target: &Tech, file: &Table) -> Result<List<(u32, Wish)>, Stop>
    requires { IsGrid target.now.grid }
    ensures { Reads result (kinds_fault target.now (table_view file.now)) (λ l. l ≡ kinds_of target.now (table_view file.now)) }
{
    if has(file, "kind") {
        kinds_there(alloc, target, file)
    } else {
        Ok(List::new(alloc))
    }
}

impl Told for Indexes<'_> {
    ghost fault = { λ told place. index_fault place (items_view told.values.now) };

    ghost number = { λ told. index_told };

    #[tactic(auto, unfolding(crate::specs::SizesFile::index_fault))]
    fn number(&self, alloc: Global, place: usize, entry: &Table) -> Result<u32, Stop> {
        let number = number_within(alloc, entry, "index", 0, INDEX_LIMIT)?;
        let index = number as u32;
        tested(
            alloc,
            "index",
            TableCause::Duplicate,
            is_first(place, find_index(self, index)),
        )?;
        Ok(index)
    }
}

// The sizes of single devices, which the file has.
#[tactic(auto, unfolding(crate::specs::SizesFile::devices_there))]
fn devices_there(alloc: Global, target: &Tech, file: &Table) -> Result<List<(u32, Wish)>, Stop>
    requires { IsGrid target.now.grid }
    ensures { Reads result (devices_there_fault target.now (table_view file.now)) (λ l. l ≡ devices_of target.now (table_view file.now)) }
{
    let values = list(alloc, file, "device")?.as_slice();
    let indexes = by_index(alloc, values)?;
    let rule = SizesRule {
        target,
        key: "index",
        told: &indexes,
    };
    at(alloc, "device", entries(alloc, &rule, values))
}

// The sizes of single devices, where the file has some.
#[tactic(auto, unfolding(crate::specs::SizesFile::devices_fault))]
pub(crate) fn devices(alloc: Global, target: &Tech, file: &Table) -> Result<List<(u32, Wish)>, Stop>
    requires { IsGrid target.now.grid }
    ensures { Reads result (devices_fault target.now (table_view file.now)) (λ l. l ≡ devices_of target.now (table_view file.now)) }
{
    if has(file, "device") {
        devices_there(alloc, target, file)
    } else {
        Ok(List::new(alloc))
    }
}
