//! The entries of a table's list of kinds.
ghost use Rattle.std.specs.Prelude.{◌≡◌, ◌&&◌, ◌||◌, not, ℕ, ℤ, List as ListValue, [], None, true, codes, length as count_of, ◌<◌, ◌^◌};
ghost use Rattle.std.specs.List.{list_any, list_all};
ghost use Rattle.toml.specs.View.{view, table_view, items_view, array_view};
ghost use Rattle.rt_tech.specs.declared.table.Kind.{Kind as KindValue};
ghost use Rattle.rt_keys.specs.Document.{word as word_at, list as list_at, entries_of};
ghost use Rattle.rt_keys.specs.Faults.{Reads};
ghost use Rattle.rt_tables.specs.Masks.{numbered, is_name as is_name_of};
ghost use Rattle.rt_keys.specs.Numbers.{measure_of};
ghost use Rattle.rt_tables.specs.Kinds.{has_near as has_near_of, background_fault, near_table_fault, near_fault, near_at, near_of, nears_fault, nears_of, kind_name_fault, backgrounds_fault, kind_table_fault, kind_fault, kind_at, kind_of, share_a_mask as share_a_mask_of, are_parted as are_parted_of, parted_fault, kinds_at, kinds_listed as kinds_listed_fault, kinds_there as kinds_there_fault, kinds_fault, kinds_of};

use crate::context::Masks;
use crate::masks::{has_role, is_name, mask_named, name_text};
use crate::rules::is_role_at;
use rt_base::List;
use rt_keys::entries::{Entry, entries};
use rt_keys::finding::{find, is_first, names};
use rt_keys::keys::{entry_table, flag, list, others, unwanted, word};
use rt_keys::names::Names;
use rt_keys::numbers::{count, length};
use rt_keys::stop::{Stop, at, at_entry, tested, tested_here};
use rt_tech::limits::KIND_LIMIT;
use rt_tech::{Kind, Near, Role, TableCause};
use std::alloc::Global;
use toml::{Table, Value};

// The keys of an entry of inside or outside, and of a kind.
const NEAR_KEYS: [&str; 2] = ["mask", "number"];

const KIND_KEYS: [&str; 4] = ["name", "device", "inside", "outside"];

// Whether one of the entries is of this mask.
fn has_near(nears: &[Near], mask: u32) -> bool
    ensures { result ≡ has_near_of nears.now mask }
{
    nears.iter().any(|near| near.mask == mask)
}

// The background of an entry of inside or outside.
#[tactic(auto, unfolding(crate::specs::Kinds::background_fault))]
fn background(alloc: Global, rule: &Masks, table: &Table) -> Result<u32, Stop>
    ensures { Reads result (background_fault (items_view rule.now.names.now.values.now) rule.now.masks.now (table_view table.now)) (λ n. n ≡ numbered (codes "mask") (items_view rule.now.names.now.values.now) (table_view table.now)) }
{
    let mask = mask_named(alloc, rule.names, table, "mask")?;
    tested(
        alloc,
        "mask",
        TableCause::Role,
        is_role_at(rule.masks, Role::Background, mask),
    )?;
    Ok(mask)
}

// How an entry of inside or outside is read, with numbers from the least one on.
#[derive(Drop)]
struct NearRule<'a> {
    masks: &'a Masks<'a>,
    low: i64,
}

// What an entry's table says.
#[tactic(auto, unfolding(crate::specs::Kinds::near_table_fault))]
fn near(alloc: Global, rule: &NearRule, before: &[Near], table: &Table) -> Result<Near, Stop>
    ensures { Reads result (near_table_fault (measure_of rule.now.masks.now.scale.now) rule.now.low (items_view rule.now.masks.now.names.now.values.now) rule.now.masks.now.masks.now before.now (table_view table.now)) (λ x. x ≡ near_at (measure_of rule.now.masks.now.scale.now) (items_view rule.now.masks.now.names.now.values.now) (table_view table.now)) }
{
    let mask = background(alloc, rule.masks, table)?;
    let number = length(alloc, table, "number", rule.masks.scale, rule.low)?;
    others(alloc, table, &NEAR_KEYS)?;
    tested_here(alloc, TableCause::Duplicate, !has_near(before, mask))?;
    Ok(Near { mask, number })
}

impl Entry for NearRule<'_> {
    type Item = Near;

    ghost fault = { λ rule. near_fault (measure_of rule.masks.now.scale.now) rule.low (items_view rule.masks.now.names.now.values.now) rule.masks.now.masks.now };

    ghost gives = { λ rule. near_of (measure_of rule.masks.now.scale.now) (items_view rule.masks.now.names.now.values.now) };

    #[tactic(auto, unfolding(crate::specs::Kinds::near_fault, crate::specs::Kinds::near_of))]
    fn read(&self, alloc: Global, before: &[Near], value: &Value) -> Result<Near, Stop> {
        let table = entry_table(alloc, value)?;
        let near = near(alloc, self, before, table)?;
        Ok(near)
    }
}

// The backgrounds at a key of a kind.
#[tactic(auto, unfolding(crate::specs::Kinds::nears_fault))]
fn nears(alloc: Global, rule: &NearRule, table: &Table, key: &str) -> Result<List<Near>, Stop>
    ensures { Reads result (nears_fault key.now (measure_of rule.now.masks.now.scale.now) rule.now.low (items_view rule.now.masks.now.names.now.values.now) rule.now.masks.now.masks.now (table_view table.now)) (λ xs. xs ≡ nears_of key.now (measure_of rule.now.masks.now.scale.now) (items_view rule.now.masks.now.names.now.values.now) (table_view table.now)) }
{
    let values = list(alloc, table, key)?.as_slice();
    let nears = at(alloc, key, entries(alloc, rule, values))?;
    Ok(nears)
}

// How an entry of the kinds is read.
#[derive(Drop)]
struct KindRule<'a> {
    kinds: &'a Names<'a>,
    masks: &'a Masks<'a>,
}

// The name of a kind.
#[tactic(auto, unfolding(crate::specs::Kinds::kind_name_fault))]
fn kind_name<'a>(
    alloc: Global,
    kinds: &Names,
    place: usize,
    table: &'a Table,
) -> Result<&'a str, Stop>
    ensures { Reads result (kind_name_fault place (items_view kinds.now.values.now) (table_view table.now)) (λ s. (s.now ≡ word_at (codes "name") (table_view table.now)) × (is_name_of s.now ≡ true)) }
{
    let name = word(alloc, table, "name")?;
    tested(alloc, "name", TableCause::Range, is_name(name.as_bytes()))?;
    tested(
        alloc,
        "name",
        TableCause::Duplicate,
        is_first(place, find(kinds, name)),
    )?;
    Ok(name)
}

// The backgrounds of a kind, inside and outside, after which it has no other key.
#[tactic(auto, unfolding(crate::specs::Kinds::backgrounds_fault))]
fn backgrounds(
    alloc: Global,
    masks: &Masks,
    table: &Table,
) -> Result<(List<Near>, List<Near>), Stop>
    ensures { Reads result (backgrounds_fault (measure_of masks.now.scale.now) (items_view masks.now.names.now.values.now) masks.now.masks.now (table_view table.now)) (λ p. (p.0 ≡ nears_of (codes "inside") (measure_of masks.now.scale.now) (items_view masks.now.names.now.values.now) (table_view table.now)) × (p.1 ≡ nears_of (codes "outside") (measure_of masks.now.scale.now) (items_view masks.now.names.now.values.now) (table_view table.now))) }
{
    let inside = nears(alloc, &NearRule { masks, low: 0 }, table, "inside")?;
    let outside = nears(alloc, &NearRule { masks, low: 1 }, table, "outside")?;
    unwanted(alloc, table, "bulk")?;
    others(alloc, table, &KIND_KEYS)?;
    Ok((inside, outside))
}

// The kind that an entry's table describes.
#[tactic(auto, unfolding(crate::specs::Kinds::kind_table_fault))]
fn kind(
    alloc: Global,
    kinds: &Names,
    masks: &Masks,
    before: &[Kind],
    table: &Table,
) -> Result<Kind, Stop>
    ensures { Reads result (kind_table_fault (measure_of masks.now.scale.now) (items_view kinds.now.values.now) (items_view masks.now.names.now.values.now) masks.now.masks.now before.now (table_view table.now)) (λ k. k ≡ kind_at (measure_of masks.now.scale.now) (items_view masks.now.names.now.values.now) (table_view table.now)) }
{
    let name = kind_name(alloc, kinds, before.len(), table)?;
    let device = flag(alloc, table, "device")?;
    let (inside, outside) = backgrounds(alloc, masks, table)?;
    let name = name_text(alloc, name)?;
    Ok(Kind {
        name,
        device,
        inside,
        outside,
    })
}

impl Entry for KindRule<'_> {
    type Item = Kind;

    ghost fault = { λ rule. kind_fault (measure_of rule.masks.now.scale.now) (items_view rule.kinds.now.values.now) (items_view rule.masks.now.names.now.values.now) rule.masks.now.masks.now };

    ghost gives = { λ rule. kind_of (measure_of rule.masks.now.scale.now) (items_view rule.masks.now.names.now.values.now) };

    #[tactic(auto, unfolding(crate::specs::Kinds::kind_fault, crate::specs::Kinds::kind_of))]
    fn read(&self, alloc: Global, before: &[Kind], value: &Value) -> Result<Kind, Stop> {
        let table = entry_table(alloc, value)?;
        let kind = kind(alloc, self.kinds, self.masks, before, table)?;
        Ok(kind)
    }
}

// Whether a mask stands in both lists.
fn share_a_mask(xs: &[Near], ys: &[Near]) -> bool
    ensures { result ≡ share_a_mask_of xs.now ys.now }
{
    xs.iter().any(|x| has_near(ys, x.mask))
}

// Whether some mask is inside of the one kind and outside of the other.
fn are_parted(a: &Kind, b: &Kind) -> bool
    ensures { result ≡ are_parted_of a.now b.now }
{
    share_a_mask(a.inside.as_slice(), b.outside.as_slice())
        || share_a_mask(a.outside.as_slice(), b.inside.as_slice())
}

// Whether the kind is parted from each of those before it.
fn is_parted(kind: &Kind, before: &[Kind]) -> bool
    ensures { result ≡ list_all (are_parted_of kind.now) before.now }
{
    before.iter().all(|other| are_parted(kind, other))
}

// Refuses the first kind that isn't parted from each of those before it.
fn parted(alloc: Global, kinds: &[Kind]) -> Result<(), Stop>
    ensures { Reads result (parted_fault [] kinds.now) (λ _. Unit {0}) }
{
    for (i, kind) in kinds.iter().enumerate() {
        let is_parted = is_parted(kind, &kinds[..i]);
        at_entry(alloc, i, tested_here(alloc, TableCause::Clash, is_parted))?;
    }
    Ok(())
}

// The kinds that the entries of their list describe.
#[tactic(auto, unfolding(crate::specs::Kinds::kinds_listed))]
fn kinds_listed(alloc: Global, kinds: &Names, masks: &Masks) -> Result<List<Kind>, Stop>
    ensures { Reads result (kinds_listed_fault (measure_of masks.now.scale.now) (items_view kinds.now.values.now) (items_view masks.now.names.now.values.now) masks.now.masks.now) (λ ks. ks ≡ entries_of (kind_of (measure_of masks.now.scale.now) (items_view masks.now.names.now.values.now)) (items_view kinds.now.values.now)) }
{
    let rule = KindRule { kinds, masks };
    let listed = at(alloc, "kind", entries(alloc, &rule, kinds.values))?;
    let is_allowed = 1 <= count(kinds.values) && count(kinds.values) <= KIND_LIMIT;
    tested(alloc, "kind", TableCause::Range, is_allowed)?;
    at(alloc, "kind", parted(alloc, listed.as_slice()))?;
    Ok(listed)
}

// The kinds of a table that has to have them.
#[tactic(auto, unfolding(crate::specs::Kinds::kinds_there))]
fn kinds_there(alloc: Global, masks: &Masks, table: &Table) -> Result<List<Kind>, Stop>
    ensures { Reads result (kinds_there_fault (measure_of masks.now.scale.now) (items_view masks.now.names.now.values.now) masks.now.masks.now (table_view table.now)) (λ ks. ks ≡ kinds_at (measure_of masks.now.scale.now) (items_view masks.now.names.now.values.now) (table_view table.now)) }
{
    let values = list(alloc, table, "kind")?.as_slice();
    let names = names(alloc, values)?;
    let kinds = kinds_listed(alloc, &names, masks)?;
    Ok(kinds)
}

// The kinds of a table, where it has an active.
#[tactic(auto, unfolding(crate::specs::Kinds::kinds_fault))]
pub(crate) fn kinds(alloc: Global, masks: &Masks, table: &Table) -> Result<List<Kind>, Stop>
    ensures { Reads result (kinds_fault (measure_of masks.now.scale.now) (items_view masks.now.names.now.values.now) masks.now.masks.now (table_view table.now)) (λ ks. ks ≡ kinds_of (measure_of masks.now.scale.now) (items_view masks.now.names.now.values.now) masks.now.masks.now (table_view table.now)) }
{
    if has_role(masks.masks, Role::Active) {
        let kinds = kinds_there(alloc, masks, table)?;
        Ok(kinds)
    } else {
        unwanted(alloc, table, "kind")?;
        Ok(List::new(alloc))
    }
}
