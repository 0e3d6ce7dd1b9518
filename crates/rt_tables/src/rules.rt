//! A table's enclosures, its rules of channels and its distances.
ghost use Rattle.std.specs.Prelude.{◌≡◌, ◌&&◌, ◌||◌, ◌==◌, not, ℕ, ℤ, true, false, List as ListValue, Some, None, is_none, codes, length as count_of, ◌<◌, ◌^◌};
ghost use Rattle.std.specs.List.{list_any, list_all};
ghost use Rattle.toml.specs.View.{view, table_view, items_view, array_view};
ghost use Rattle.rt_keys.specs.Document.{inner as inner_at, list as list_at};
ghost use Rattle.rt_keys.specs.Faults.{Reads};
ghost use Rattle.rt_tables.specs.Masks.{has_role as has_role_of, numbered};
ghost use Rattle.rt_keys.specs.Numbers.{measure_of};
ghost use Rattle.rt_tables.specs.Rules.{is_role_at as is_role_at_of, is_upper_of as is_upper_of_of, is_lower_of as is_lower_of_of, has_upper as has_upper_of, has_lower as has_lower_of, has_enclose as has_enclose_of, cut_fault, enclose_end_fault, enclose_table_fault, enclose_fault, enclose_at, enclose_of, is_enclosed as is_enclosed_of, are_enclosed as are_enclosed_of, encloses_of, enclose_there, encloses_fault, channel_table_fault, channel_there, channel_fault, gates_at, gates_of, has_on, on_fault, on_at, same_on as same_on_of, has_apart as has_apart_of, are_gate_and_active as are_gate_and_active_of, is_on_another as is_on_another_of, may_be_apart as may_be_apart_of, apart_end_fault, apart_table_fault, apart_fault, apart_at, apart_of, is_kept_from as is_kept_from_of, is_kept_from_gate as is_kept_from_gate_of, is_kept_apart as is_kept_apart_of, are_kept_apart as are_kept_apart_of, aparts_of, aparts_fault};

use crate::context::Masks;
use crate::masks::{contains, has_role, mask_named};
use rt_base::List;
use rt_keys::entries::{Entry, entries};
use rt_keys::keys::{entry_table, inner, list, others, unwanted, values_if_there};
use rt_keys::numbers::length;
use rt_keys::scale::Scale;
use rt_keys::stop::{Stop, at, tested, tested_here};
use rt_keys::words::same_role;
use rt_tech::{Apart, Enclose, Gates, Kind, Mask, Role, TableCause};
use std::alloc::Global;
use toml::{Table, Value};

// The keys of an enclosure, of the rules of channels, and of a distance.
const ENCLOSE_KEYS: [&str; 3] = ["cut", "mask", "number"];

const CHANNEL_KEYS: [&str; 3] = ["cap", "ext", "cross"];

const APART_KEYS: [&str; 4] = ["a", "b", "number", "on"];

// What a document says after its masks.
#[derive(Drop)]
pub(crate) struct Rules {
    pub encloses: List<Enclose>,
    pub gates: Option<Gates>,
    pub aparts: List<Apart>,
    pub kinds: List<Kind>,
}

// Whether mask number n has the role.
pub(crate) fn is_role_at(masks: &[Mask], role: Role, n: u32) -> bool
    ensures { result ≡ is_role_at_of role masks.now n }
{
    match masks.get(n as usize) {
        Some(mask) => same_role(mask.role, role),
        None => false,
    }
}

// Whether the mask is a cut with this upper mask.
fn is_upper_of(cut: &Mask, n: u32) -> bool
    ensures { result ≡ is_upper_of_of cut.now n }
{
    same_role(cut.role, Role::Cut) && cut.upper == n
}

// Whether the mask is a cut with this lower mask.
fn is_lower_of(cut: &Mask, n: u32) -> bool
    ensures { result ≡ is_lower_of_of cut.now n }
{
    same_role(cut.role, Role::Cut) && contains(cut.lowers.as_slice(), n)
}

// Whether mask number `cut` is a cut with this upper mask.
fn has_upper(masks: &[Mask], cut: u32, n: u32) -> bool
    ensures { result ≡ has_upper_of masks.now cut n }
{
    match masks.get(cut as usize) {
        Some(mask) => is_upper_of(mask, n),
        None => false,
    }
}

// Whether mask number `cut` is a cut with this lower mask.
fn has_lower(masks: &[Mask], cut: u32, n: u32) -> bool
    ensures { result ≡ has_lower_of masks.now cut n }
{
    match masks.get(cut as usize) {
        Some(mask) => is_lower_of(mask, n),
        None => false,
    }
}

// Whether one of the enclosures is of this cut and this mask.
fn has_enclose(encloses: &[Enclose], cut: u32, mask: u32) -> bool
    ensures { result ≡ has_enclose_of encloses.now cut mask }
{
    encloses.iter().any(|e| e.cut == cut && e.mask == mask)
}

// The cut of an enclosure.
#[tactic(auto, unfolding(crate::specs::Rules::cut_fault))]
fn cut(alloc: Global, rule: &Masks, table: &Table) -> Result<u32, Stop>
    ensures { Reads result (cut_fault (items_view rule.now.names.now.values.now) rule.now.masks.now (table_view table.now)) (λ n. n ≡ numbered (codes "cut") (items_view rule.now.names.now.values.now) (table_view table.now)) }
{
    let cut = mask_named(alloc, rule.names, table, "cut")?;
    tested(
        alloc,
        "cut",
        TableCause::Role,
        is_role_at(rule.masks, Role::Cut, cut),
    )?;
    Ok(cut)
}

// Whether the cut, by its number, may be enclosed in the mask.
fn may_enclose(masks: &[Mask], cut: u32, mask: u32) -> bool
    ensures { result ≡ (has_upper_of masks.now cut mask || has_lower_of masks.now cut mask) }
{
    has_upper(masks, cut, mask) || has_lower(masks, cut, mask)
}

// Refuses an entry that says this enclosure: by a key that it may not have, or as one that may not be.
#[tactic(auto, unfolding(crate::specs::Rules::enclose_end_fault))]
fn check_enclose(
    alloc: Global,
    masks: &[Mask],
    before: &[Enclose],
    enclose: &Enclose,
    table: &Table,
) -> Result<(), Stop>
    ensures { Reads result (enclose_end_fault masks.now before.now enclose.now (table_view table.now)) (λ _. Unit {0}) }
{
    others(alloc, table, &ENCLOSE_KEYS)?;
    tested_here(
        alloc,
        TableCause::Duplicate,
        !has_enclose(before, enclose.cut, enclose.mask),
    )?;
    tested_here(
        alloc,
        TableCause::Clash,
        may_enclose(masks, enclose.cut, enclose.mask),
    )
}

// The enclosure that an entry's table says.
#[tactic(auto, unfolding(crate::specs::Rules::enclose_table_fault))]
fn enclose(alloc: Global, rule: &Masks, before: &[Enclose], table: &Table) -> Result<Enclose, Stop>
    ensures { Reads result (enclose_table_fault (measure_of rule.now.scale.now) (items_view rule.now.names.now.values.now) rule.now.masks.now before.now (table_view table.now)) (λ e. e ≡ enclose_at (measure_of rule.now.scale.now) (items_view rule.now.names.now.values.now) (table_view table.now)) }
{
    let cut = cut(alloc, rule, table)?;
    let mask = mask_named(alloc, rule.names, table, "mask")?;
    let number = length(alloc, table, "number", rule.scale, 0)?;
    let enclose = Enclose { cut, mask, number };
    check_enclose(alloc, rule.masks, before, &enclose, table)?;
    Ok(enclose)
}

// How an entry of the enclosures is read.
#[derive(Drop)]
struct EncloseRule<'a> {
    masks: &'a Masks<'a>,
}

impl Entry for EncloseRule<'_> {
    type Item = Enclose;

    ghost fault = { λ rule. enclose_fault (measure_of rule.masks.now.scale.now) (items_view rule.masks.now.names.now.values.now) rule.masks.now.masks.now };

    ghost gives = { λ rule. enclose_of (measure_of rule.masks.now.scale.now) (items_view rule.masks.now.names.now.values.now) };

    #[tactic(auto, unfolding(crate::specs::Rules::enclose_fault, crate::specs::Rules::enclose_of))]
    fn read(&self, alloc: Global, before: &[Enclose], value: &Value) -> Result<Enclose, Stop> {
        let table = entry_table(alloc, value)?;
        let enclose = enclose(alloc, self.masks, before, table)?;
        Ok(enclose)
    }
}

// Whether the cut, by its number, is enclosed in each of the masks.
fn is_enclosed_in(encloses: &[Enclose], n: u32, masks: &[u32]) -> bool
    ensures { result ≡ list_all (λ lower. has_enclose_of encloses.now n lower) masks.now }
{
    masks.iter().all(|lower| has_enclose(encloses, n, *lower))
}

// Whether mask number n, where it is a cut, has the enclosures that it demands.
fn is_enclosed(encloses: &[Enclose], n: u32, mask: &Mask) -> bool
    ensures { result ≡ is_enclosed_of encloses.now n mask.now }
{
    !same_role(mask.role, Role::Cut)
        || (has_enclose(encloses, n, mask.upper)
            && is_enclosed_in(encloses, n, mask.lowers.as_slice()))
}

// Whether each cut has the enclosures that it demands.
fn are_enclosed(encloses: &[Enclose], masks: &[Mask]) -> bool
    requires { count_of masks.now < 2 ^ 32 }
    ensures { result ≡ are_enclosed_of encloses.now 0 masks.now }
{
    for (i, mask) in masks.iter().enumerate() {
        if !is_enclosed(encloses, i as u32, mask) {
            return false;
        }
    }
    true
}

// Refuses a table without the list of enclosures where it has a cut.
#[tactic(auto, unfolding(crate::specs::Rules::enclose_there))]
fn enclose_values<'a>(alloc: Global, masks: &[Mask], table: &'a Table) -> Result<&'a [Value], Stop>
    ensures { Reads result (enclose_there masks.now (table_view table.now)) (λ vs. items_view vs.now ≡ list_at (codes "enclose") (table_view table.now)) }
{
    if has_role(masks, Role::Cut) {
        let values = list(alloc, table, "enclose")?;
        Ok(values.as_slice())
    } else {
        let values = values_if_there(alloc, table, "enclose")?;
        Ok(values)
    }
}

// The enclosures of a table.
#[tactic(auto, unfolding(crate::specs::Rules::encloses_fault))]
pub(crate) fn encloses(alloc: Global, masks: &Masks, table: &Table) -> Result<List<Enclose>, Stop>
    ensures { Reads result (encloses_fault (measure_of masks.now.scale.now) (items_view masks.now.names.now.values.now) masks.now.masks.now (table_view table.now)) (λ es. es ≡ encloses_of (measure_of masks.now.scale.now) (items_view masks.now.names.now.values.now) (table_view table.now)) }
{
    let values = enclose_values(alloc, masks.masks, table)?;
    let encloses = at(
        alloc,
        "enclose",
        entries(alloc, &EncloseRule { masks }, values),
    )?;
    let are_enclosed = are_enclosed(encloses.as_slice(), masks.masks);
    tested(alloc, "enclose", TableCause::Missing, are_enclosed)?;
    Ok(encloses)
}

// The rules of channels that a table of their own says.
#[tactic(auto, unfolding(crate::specs::Rules::channel_table_fault))]
fn channel(alloc: Global, scale: &Scale, table: &Table) -> Result<Gates, Stop>
    ensures { Reads result (channel_table_fault (measure_of scale.now) (table_view table.now)) (λ g. g ≡ gates_at (measure_of scale.now) (table_view table.now)) }
{
    let cap = length(alloc, table, "cap", scale, 1)?;
    let ext = length(alloc, table, "ext", scale, 1)?;
    let cross = length(alloc, table, "cross", scale, 1)?;
    others(alloc, table, &CHANNEL_KEYS)?;
    Ok(Gates { cap, ext, cross })
}

// The rules of channels of a table that has to have them.
#[tactic(auto, unfolding(crate::specs::Rules::channel_there))]
fn gates_there(alloc: Global, scale: &Scale, table: &Table) -> Result<Gates, Stop>
    ensures { Reads result (channel_there (measure_of scale.now) (table_view table.now)) (λ g. g ≡ gates_at (measure_of scale.now) (inner_at (codes "channel") (table_view table.now))) }
{
    let inner = inner(alloc, table, "channel")?;
    let gates = at(alloc, "channel", channel(alloc, scale, inner))?;
    Ok(gates)
}

// The rules of channels of a table, where it has an active.
#[tactic(auto, unfolding(crate::specs::Rules::channel_fault))]
pub(crate) fn gates(alloc: Global, masks: &Masks, table: &Table) -> Result<Option<Gates>, Stop>
    ensures { Reads result (channel_fault (measure_of masks.now.scale.now) masks.now.masks.now (table_view table.now)) (λ g. g ≡ gates_of (measure_of masks.now.scale.now) masks.now.masks.now (table_view table.now)) }
{
    if has_role(masks.masks, Role::Active) {
        let gates = gates_there(alloc, masks.scale, table)?;
        Ok(Some(gates))
    } else {
        unwanted(alloc, table, "channel")?;
        Ok(None)
    }
}

// Whether both are there and the same, or neither is.
fn same_on(a: Option<u32>, b: Option<u32>) -> bool
    ensures { result ≡ same_on_of a b }
{
    match (a, b) {
        (None, None) => true,
        (Some(m), Some(n)) => m == n,
        (None, Some(_)) | (Some(_), None) => false,
    }
}

// Whether one of the distances is of these masks.
fn has_apart(aparts: &[Apart], a: u32, on: Option<u32>, b: u32) -> bool
    ensures { result ≡ has_apart_of aparts.now a on b }
{
    aparts
        .iter()
        .any(|x| x.a == a && same_on(x.on, on) && x.b == b)
}

// Whether the one mask is the gate and the other the active.
fn are_gate_and_active(masks: &[Mask], a: u32, b: u32) -> bool
    ensures { result ≡ are_gate_and_active_of masks.now a b }
{
    is_role_at(masks, Role::Gate, a) && is_role_at(masks, Role::Active, b)
}

// Whether the lower mask on which a cut stands, where one is named, is another one.
fn is_on_another(masks: &[Mask], a: u32, on: Option<u32>, b: u32) -> bool
    ensures { result ≡ is_on_another_of masks.now a on b }
{
    match on {
        None => true,
        Some(on) => has_lower(masks, a, on) && !(on == b),
    }
}

// Whether the masks may have a distance.
fn may_be_apart(masks: &[Mask], a: u32, on: Option<u32>, b: u32) -> bool
    ensures { result ≡ may_be_apart_of masks.now a on b }
{
    !(a == b)
        && !are_gate_and_active(masks, a, b)
        && !are_gate_and_active(masks, b, a)
        && is_on_another(masks, a, on, b)
        && !has_upper(masks, a, b)
        && !has_upper(masks, b, a)
        && !has_lower(masks, b, a)
}

// The lower mask that an entry names beside its cut, where it has to.
#[tactic(auto, unfolding(crate::specs::Rules::on_fault))]
fn on(alloc: Global, rule: &Masks, table: &Table, a: u32, b: u32) -> Result<Option<u32>, Stop>
    requires a { a ≡ numbered (codes "a") (items_view rule.now.names.now.values.now) (table_view table.now) }
    requires b { b ≡ numbered (codes "b") (items_view rule.now.names.now.values.now) (table_view table.now) }
    ensures { Reads result (on_fault (items_view rule.now.names.now.values.now) rule.now.masks.now (table_view table.now)) (λ n. n ≡ on_at (items_view rule.now.names.now.values.now) rule.now.masks.now (table_view table.now)) }
{
    if has_lower(rule.masks, a, b) {
        let on = mask_named(alloc, rule.names, table, "on")?;
        Ok(Some(on))
    } else {
        unwanted(alloc, table, "on")?;
        Ok(None)
    }
}

// Refuses an entry that says this distance: by a key that it may not have, or as one that may not be.
#[tactic(auto, unfolding(crate::specs::Rules::apart_end_fault))]
fn check_apart(
    alloc: Global,
    masks: &[Mask],
    before: &[Apart],
    apart: &Apart,
    table: &Table,
) -> Result<(), Stop>
    ensures { Reads result (apart_end_fault masks.now before.now apart.now (table_view table.now)) (λ _. Unit {0}) }
{
    others(alloc, table, &APART_KEYS)?;
    tested_here(
        alloc,
        TableCause::Duplicate,
        !has_apart(before, apart.a, apart.on, apart.b),
    )?;
    tested_here(
        alloc,
        TableCause::Clash,
        may_be_apart(masks, apart.a, apart.on, apart.b),
    )
}

// The distance that an entry's table says.
#[tactic(auto, unfolding(crate::specs::Rules::apart_table_fault))]
fn apart(alloc: Global, rule: &Masks, before: &[Apart], table: &Table) -> Result<Apart, Stop>
    ensures { Reads result (apart_table_fault (measure_of rule.now.scale.now) (items_view rule.now.names.now.values.now) rule.now.masks.now before.now (table_view table.now)) (λ x. x ≡ apart_at (measure_of rule.now.scale.now) (items_view rule.now.names.now.values.now) rule.now.masks.now (table_view table.now)) }
{
    let a = mask_named(alloc, rule.names, table, "a")?;
    let b = mask_named(alloc, rule.names, table, "b")?;
    let number = length(alloc, table, "number", rule.scale, 1)?;
    let on = on(alloc, rule, table, a, b)?;
    let apart = Apart { a, on, b, number };
    check_apart(alloc, rule.masks, before, &apart, table)?;
    Ok(apart)
}

// How an entry of the distances is read.
#[derive(Drop)]
struct ApartRule<'a> {
    masks: &'a Masks<'a>,
}

impl Entry for ApartRule<'_> {
    type Item = Apart;

    ghost fault = { λ rule. apart_fault (measure_of rule.masks.now.scale.now) (items_view rule.masks.now.names.now.values.now) rule.masks.now.masks.now };

    ghost gives = { λ rule. apart_of (measure_of rule.masks.now.scale.now) (items_view rule.masks.now.names.now.values.now) rule.masks.now.masks.now };

    #[tactic(auto, unfolding(crate::specs::Rules::apart_fault, crate::specs::Rules::apart_of))]
    fn read(&self, alloc: Global, before: &[Apart], value: &Value) -> Result<Apart, Stop> {
        let table = entry_table(alloc, value)?;
        let apart = apart(alloc, self.masks, before, table)?;
        Ok(apart)
    }
}

// Whether the cut, number n, has a distance from its lower mask b where it stands on another one.
fn is_kept_from(aparts: &[Apart], n: u32, lowers: &[u32], b: u32) -> bool
    ensures { result ≡ is_kept_from_of aparts.now n lowers.now b }
{
    lowers
        .iter()
        .all(|on| *on == b || has_apart(aparts, n, Some(*on), b))
}

// Whether the cut, number n, has these distances from each of its lower masks.
fn is_kept_from_each(aparts: &[Apart], n: u32, lowers: &[u32]) -> bool
    ensures { result ≡ list_all (is_kept_from_of aparts.now n lowers.now) lowers.now }
{
    lowers.iter().all(|b| is_kept_from(aparts, n, lowers, *b))
}

// Whether one of the masks, by their numbers, has the role.
fn has_role_among(masks: &[Mask], role: Role, numbers: &[u32]) -> bool
    ensures { result ≡ list_any (is_role_at_of role masks.now) numbers.now }
{
    numbers.iter().any(|n| is_role_at(masks, role, *n))
}

// Whether the cut, number n, has a distance from the gate.
fn has_gate_apart(masks: &[Mask], aparts: &[Apart], n: u32) -> bool
    ensures { result ≡ list_any (λ x. (x.a == n) && is_none x.on && is_role_at_of Role.Gate masks.now x.b) aparts.now }
{
    aparts.iter().any(|x| x.a == n && x.on.is_none() && is_role_at(masks, Role::Gate, x.b))
}

// Whether the cut, number n, has a distance from the gate where it has to.
fn is_kept_from_gate(masks: &[Mask], aparts: &[Apart], n: u32, lowers: &[u32]) -> bool
    ensures { result ≡ is_kept_from_gate_of masks.now aparts.now n lowers.now }
{
    !has_role_among(masks, Role::Active, lowers)
        || has_role_among(masks, Role::Gate, lowers)
        || has_gate_apart(masks, aparts, n)
}

// Whether mask number n, where it is a cut, has the distances that it demands.
fn is_kept_apart(masks: &[Mask], aparts: &[Apart], n: u32, mask: &Mask) -> bool
    ensures { result ≡ is_kept_apart_of masks.now aparts.now n mask.now }
{
    let lowers = mask.lowers.as_slice();
    !same_role(mask.role, Role::Cut)
        || (is_kept_from_each(aparts, n, lowers) && is_kept_from_gate(masks, aparts, n, lowers))
}

// Whether each cut has the distances that it demands.
fn are_kept_apart(masks: &[Mask], aparts: &[Apart]) -> bool
    requires { count_of masks.now < 2 ^ 32 }
    ensures { result ≡ are_kept_apart_of masks.now aparts.now 0 masks.now }
{
    for (i, mask) in masks.iter().enumerate() {
        if !is_kept_apart(masks, aparts, i as u32, mask) {
            return false;
        }
    }
    true
}

// The distances of a table.
#[tactic(auto, unfolding(crate::specs::Rules::aparts_fault))]
pub(crate) fn aparts(alloc: Global, masks: &Masks, table: &Table) -> Result<List<Apart>, Stop>
    ensures { Reads result (aparts_fault (measure_of masks.now.scale.now) (items_view masks.now.names.now.values.now) masks.now.masks.now (table_view table.now)) (λ es. es ≡ aparts_of (measure_of masks.now.scale.now) (items_view masks.now.names.now.values.now) masks.now.masks.now (table_view table.now)) }
{
    let values = values_if_there(alloc, table, "apart")?;
    let aparts = at(alloc, "apart", entries(alloc, &ApartRule { masks }, values))?;
    let are_apart = are_kept_apart(masks.masks, aparts.as_slice());
    tested(alloc, "apart", TableCause::Missing, are_apart)?;
    Ok(aparts)
}
