//! The entries of a table's list of masks.
ghost use Rattle.std.specs.Prelude.{◌≡◌, ◌∷◌, IfOk, pos, true, false, ◌==◌, List as ListValue, ℤ, ℕ, unwrap_or, codes, not, is_some, MatchOption, Some, None, length as count_of};
ghost use Rattle.std.specs.List.{list_any, list_all};
ghost use Rattle.rt_tech.specs.Words.{same_pair as same_pair_of, same_role as same_role_of};
ghost use Rattle.std.specs.Option.{option_map_or};
ghost use Rattle.toml.specs.Data.{Members};
ghost use Rattle.toml.specs.View.{view, table_view, items_view, array_view};
ghost use Rattle.rt_keys.specs.Document.{word as word_at, list as list_at, number as number_at, as_members};
ghost use Rattle.rt_keys.specs.Faults.{Reads};
ghost use Rattle.rt_keys.specs.Names.{named};
ghost use Rattle.rt_keys.specs.Numbers.{measure_of, length_of, pair_of, number_fault};
ghost use Rattle.rt_tables.specs.Masks.{is_name as is_name_of, is_name_byte as is_name_byte_of, has_role as has_role_of, is_single as is_single_of, may_have_text as may_have_text_of, may_be_lower as may_be_lower_of, has_pair as has_pair_of, has_note as has_note_of, are_different as are_different_of, is_cut, role_told, role_of, role_at as role_at_of, named_fault, numbered, name_fault, role_fault, layer_fault, datatype_fault, text_there, text_fault, width_fault, upper_fault, lower_entry_fault, lower_entry, lowers_at, lowers_fault, lower_fault, sides_fault, measures_fault, mask_table_fault, mask_fault, mask_at, mask_of, note_at, pair_at, width_at, upper_at, lowers_of};

use rt_base::{List, Text};
use rt_keys::entries::{Entry, entries};
use rt_keys::finding::{find, is_first};
use rt_keys::keys::{entry_table, entry_word, has, list, member, others, unwanted, word};
use rt_keys::names::Names;
use rt_keys::numbers::{count, length, number_within, pair, value_at};
use rt_keys::scale::Scale;
use rt_keys::stop::{Stop, at, printable, refused, refused_here, tested, tested_here};
use rt_keys::words::{role_named, same_role};
use rt_tech::limits::{LAYER_LIMIT, NAME_LIMIT};
use rt_tech::{Mask, Role, TableCause, is_ignored, same_pair};
use std::alloc::Global;
use toml::{Table, Value};

// The keys of a mask.
const MASK_KEYS: [&str; 10] = [
    "name", "role", "layer", "datatype", "text", "space", "width", "size", "upper", "lower",
];

// Whether the bytes are a name.
pub(crate) fn is_name(bytes: &[u8]) -> bool
    ensures { result ≡ is_name_of bytes.now }
{
    1 <= bytes.len() && bytes.len() <= NAME_LIMIT && are_name_bytes(bytes)
}

// Whether a name may have each of the bytes.
fn are_name_bytes(bytes: &[u8]) -> bool
    ensures { result ≡ list_all is_name_byte_of bytes.now }
{
    bytes.iter().all(|byte| is_name_byte(*byte))
}

// Whether a name may have this byte.
fn is_name_byte(byte: u8) -> bool
    ensures { result ≡ is_name_byte_of byte }
{
    matches!(byte, b'a'..=b'z' | b'0'..=b'9' | b'_')
}

// Whether one of the masks has the role.
pub(crate) fn has_role(masks: &[Mask], role: Role) -> bool
    ensures { result ≡ has_role_of role masks.now }
{
    masks.iter().any(|mask| same_role(mask.role, role))
}

// Whether one mask alone may have the role.
fn is_single(role: Role) -> bool
    ensures { result ≡ is_single_of role }
{
    matches!(role, Role::Gate | Role::Active)
}

// Whether a mask of the role may have labels.
fn may_have_text(role: Role) -> bool
    ensures { result ≡ may_have_text_of role }
{
    matches!(role, Role::Metal | Role::Gate)
}

// Whether a cut may stand on a mask of the role.
fn may_be_lower(role: Role) -> bool
    ensures { result ≡ may_be_lower_of role }
{
    matches!(role, Role::Metal | Role::Gate | Role::Active)
}

// Whether one of the masks has this layer pair.
fn has_pair(masks: &[Mask], pair: (i16, i16)) -> bool
    ensures { result ≡ has_pair_of masks.now pair }
{
    masks.iter().any(|mask| is_pair_of(mask, pair))
}

// Whether the mask has this layer pair.
fn is_pair_of(mask: &Mask, pair: (i16, i16)) -> bool
    ensures { result ≡ same_pair_of (mask.now.layer, mask.now.datatype) pair }
{
    same_pair((mask.layer, mask.datatype), pair)
}

// Whether the labels of one of the masks have this layer pair.
fn has_note(masks: &[Mask], pair: (i16, i16)) -> bool
    ensures { result ≡ has_note_of masks.now pair }
{
    masks.iter().any(|mask| is_note_of(mask, pair))
}

// Whether the mask's labels have this layer pair.
fn is_note_of(mask: &Mask, pair: (i16, i16)) -> bool
    ensures { result ≡ option_map_or (λ note. same_pair_of note pair) mask.now.note false }
{
    match mask.note {
        Some(note) => same_pair(note, pair),
        None => false,
    }
}

// Whether the numbers are different.
fn are_different(numbers: &[u32]) -> bool
    ensures { result ≡ are_different_of numbers.now }
{
    for (i, number) in numbers.iter().enumerate() {
        if contains(&numbers[i + 1..], *number) {
            return false;
        }
    }
    true
}

// Whether the number is one of these.
pub(crate) fn contains(numbers: &[u32], number: u32) -> bool
    ensures { result ≡ list_any (λ m. number == m) numbers.now }
{
    numbers.iter().any(|m| number == *m)
}

// A name as a text.
#[tactic(auto, using(crate::proofs::Texts::name_is_printable))]
pub(crate) fn name_text(alloc: Global, name: &str) -> Result<Text, Stop>
    requires { is_name_of name.now ≡ true }
    ensures { Reads result None (λ t. t ≡ name.now) }
{
    match Vec::from_slice(alloc, name.as_bytes()) {
        Ok(bytes) => Ok(printable(List::of(bytes))),
        Err(_) => Err(Stop::OutOfMemory),
    }
}

// The name of an entry.
#[tactic(auto, unfolding(crate::specs::Masks::name_fault))]
fn name<'a>(alloc: Global, names: &Names, place: usize, table: &'a Table) -> Result<&'a str, Stop>
    ensures { Reads result (name_fault place (items_view names.now.values.now) (table_view table.now)) (λ s. (s.now ≡ word_at (codes "name") (table_view table.now)) × (is_name_of s.now ≡ true)) }
{
    let name = word(alloc, table, "name")?;
    let is_allowed = is_name(name.as_bytes());
    tested(
        alloc,
        "name",
        TableCause::Range,
        is_allowed && name != "channel",
    )?;
    tested(
        alloc,
        "name",
        TableCause::Duplicate,
        is_first(place, find(names, name)),
    )?;
    Ok(name)
}

// The role of an entry.
#[tactic(auto, unfolding(crate::specs::Masks::role_fault))]
fn role(alloc: Global, before: &[Mask], table: &Table) -> Result<Role, Stop>
    ensures { Reads result (role_fault before.now (table_view table.now)) (λ r. r ≡ role_of (table_view table.now)) }
{
    let word = word(alloc, table, "role")?;
    let Some(role) = role_named(word) else {
        return Err(refused(alloc, "role", TableCause::Range));
    };
    tested(
        alloc,
        "role",
        TableCause::Clash,
        !(is_single(role) && has_role(before, role)),
    )?;
    Ok(role)
}

// A number of a layer pair.
fn layer_number(alloc: Global, table: &Table, key: &str) -> Result<i16, Stop>
    ensures { Reads result (number_fault (pos 0) LAYER_LIMIT key.now (table_view table.now)) (λ n. n ≡ number_at key.now (table_view table.now)) }
{
    let number = number_within(alloc, table, key, 0, LAYER_LIMIT)?;
    Ok(number as i16)
}

// The data type of an entry, beside its layer.
#[tactic(auto, unfolding(crate::specs::Masks::datatype_fault))]
fn datatype(
    alloc: Global,
    ignored: &[(i16, i16)],
    before: &[Mask],
    table: &Table,
    layer: &i16,
) -> Result<i16, Stop>
    requires { layer.now ≡ number_at (codes "layer") (table_view table.now) }
    ensures { Reads result (datatype_fault ignored.now before.now (table_view table.now)) (λ n. n ≡ number_at (codes "datatype") (table_view table.now)) }
{
    let datatype = layer_number(alloc, table, "datatype")?;
    let pair = (*layer, datatype);
    tested(
        alloc,
        "datatype",
        TableCause::Duplicate,
        !has_pair(before, pair),
    )?;
    tested(
        alloc,
        "datatype",
        TableCause::Clash,
        !is_ignored(ignored, pair),
    )?;
    Ok(datatype)
}

// The layer pair of an entry's labels, which is there.
#[tactic(auto, unfolding(crate::specs::Masks::text_there))]
fn note_there(
    alloc: Global,
    ignored: &[(i16, i16)],
    before: &[Mask],
    table: &Table,
    role: Role,
) -> Result<(i16, i16), Stop>
    requires { role ≡ role_of (table_view table.now) }
    ensures { Reads result (text_there ignored.now before.now (table_view table.now)) (λ p. p ≡ pair_of (list_at (codes "text") (table_view table.now))) }
{
    let values = list(alloc, table, "text")?.as_slice();
    let note = at(alloc, "text", pair(alloc, values, &(0, 0)))?;
    tested(
        alloc,
        "text",
        TableCause::Duplicate,
        !has_note(before, note),
    )?;
    tested(alloc, "text", TableCause::Role, may_have_text(role))?;
    tested(alloc, "text", TableCause::Clash, !is_ignored(ignored, note))?;
    Ok(note)
}

// The layer pair of an entry's labels, where it has one.
#[tactic(auto, unfolding(crate::specs::Masks::text_fault))]
fn note(
    alloc: Global,
    ignored: &[(i16, i16)],
    before: &[Mask],
    table: &Table,
    role: Role,
) -> Result<Option<(i16, i16)>, Stop>
    requires { role ≡ role_of (table_view table.now) }
    ensures { Reads result (text_fault ignored.now before.now (table_view table.now)) (λ n. n ≡ note_at (table_view table.now)) }
{
    if has(table, "text") {
        match note_there(alloc, ignored, before, table, role) {
            Ok(note) => Ok(Some(note)),
            Err(stop) => Err(stop),
        }
    } else {
        Ok(None)
    }
}

// The width of an entry, or its size where it is a cut.
#[tactic(auto, unfolding(crate::specs::Masks::width_fault))]
fn width(alloc: Global, scale: &Scale, table: &Table, role: Role) -> Result<i64, Stop>
    requires { role ≡ role_of (table_view table.now) }
    ensures { Reads result (width_fault (measure_of scale.now) (table_view table.now)) (λ n. n ≡ width_at (measure_of scale.now) (table_view table.now)) }
{
    if same_role(role, Role::Cut) {
        unwanted(alloc, table, "width")?;
        let size = length(alloc, table, "size", scale, 1)?;
        Ok(size)
    } else {
        let width = length(alloc, table, "width", scale, 1)?;
        unwanted(alloc, table, "size")?;
        Ok(width)
    }
}

// The number of the mask that a key names.
pub(crate) fn mask_named(
    alloc: Global,
    names: &Names,
    table: &Table,
    key: &str,
) -> Result<u32, Stop>
    ensures { Reads result (named_fault key.now (items_view names.now.values.now) (table_view table.now)) (λ n. n ≡ numbered key.now (items_view names.now.values.now) (table_view table.now)) }
{
    let name = word(alloc, table, key)?;
    match find(names, name) {
        Some(number) => Ok(number),
        None => Err(refused(alloc, key, TableCause::Name)),
    }
}

// The role that an entry tells.
fn told(table: &Table) -> Option<Role>
    ensures { result ≡ role_told (table_view table.now) }
{
    match member(table, "role") {
        Some(value) => match value.as_str() {
            Some(word) => role_named(word),
            None => None,
        },
        None => None,
    }
}

// The role that entry number n of the masks tells.
fn role_at(values: &[Value], n: u32) -> Option<Role>
    ensures { result ≡ role_at_of (items_view values.now) n }
{
    match value_at(values, n as usize) {
        Some(value) => role_of_entry(value),
        None => None,
    }
}

// The role that an entry of the masks tells.
fn role_of_entry(value: &Value) -> Option<Role>
    ensures { result ≡ role_told (as_members (view value.now)) }
{
    match value.as_table() {
        Some(table) => told(table),
        None => None,
    }
}

// Whether entry number n of the masks tells that it is a metal.
fn is_metal(values: &[Value], n: u32) -> bool
    ensures { result ≡ option_map_or (λ role. same_role_of role Role.Metal) (role_at_of (items_view values.now) n) false }
{
    match role_at(values, n) {
        Some(role) => same_role(role, Role::Metal),
        None => false,
    }
}

// Whether entry number n of the masks tells a role that a cut may stand on.
fn is_base(values: &[Value], n: u32) -> bool
    ensures { result ≡ option_map_or may_be_lower_of (role_at_of (items_view values.now) n) false }
{
    match role_at(values, n) {
        Some(role) => may_be_lower(role),
        None => false,
    }
}

// The upper mask of a cut's entry.
#[tactic(auto, unfolding(crate::specs::Masks::upper_fault))]
fn upper(alloc: Global, names: &Names, table: &Table) -> Result<u32, Stop>
    ensures { Reads result (upper_fault (items_view names.now.values.now) (table_view table.now)) (λ n. n ≡ numbered (codes "upper") (items_view names.now.values.now) (table_view table.now)) }
{
    let upper = mask_named(alloc, names, table, "upper")?;
    tested(
        alloc,
        "upper",
        TableCause::Role,
        is_metal(names.values, upper),
    )?;
    Ok(upper)
}

// How an entry of a cut's lower masks is read.
#[derive(Drop)]
struct LowerRule<'a> {
    names: &'a Names<'a>,
}

impl Entry for LowerRule<'_> {
    type Item = u32;

    ghost fault = { λ rule before. lower_entry_fault (items_view rule.names.now.values.now) };

    ghost gives = { λ rule. lower_entry (items_view rule.names.now.values.now) };

    #[tactic(auto, unfolding(crate::specs::Masks::lower_entry_fault))]
    fn read(&self, alloc: Global, _: &[u32], value: &Value) -> Result<u32, Stop> {
        let name = entry_word(alloc, value)?;
        let Some(number) = find(self.names, name) else {
            return Err(refused_here(alloc, TableCause::Name));
        };
        tested_here(alloc, TableCause::Role, is_base(self.names.values, number))?;
        Ok(number)
    }
}

// The lower masks of a cut's entry, whose upper mask is known.
#[tactic(auto, unfolding(crate::specs::Masks::lower_fault))]
fn lowers(alloc: Global, names: &Names, table: &Table, upper: u32) -> Result<List<u32>, Stop>
    requires { upper ≡ numbered (codes "upper") (items_view names.now.values.now) (table_view table.now) }
    ensures { Reads result (lower_fault (items_view names.now.values.now) (table_view table.now)) (λ ns. ns ≡ lowers_at (items_view names.now.values.now) (table_view table.now)) }
{
    let values = list(alloc, table, "lower")?.as_slice();
    let lowers = at(alloc, "lower", entries(alloc, &LowerRule { names }, values))?;
    check_lowers(alloc, count(values), upper, lowers.as_slice())?;
    Ok(lowers)
}

// Refuses a cut without a lower mask, and then one that has a mask twice.
#[tactic(auto, unfolding(crate::specs::Masks::lowers_fault))]
fn check_lowers(alloc: Global, count: usize, upper: u32, lowers: &[u32]) -> Result<(), Stop>
    ensures { Reads result (lowers_fault count upper lowers.now) (λ _. Unit {0}) }
{
    tested(alloc, "lower", TableCause::Range, 1 <= count)?;
    tested(alloc, "lower", TableCause::Clash, are_lowers(upper, lowers))
}

// Whether the lower masks are different ones, and none is the upper.
fn are_lowers(upper: u32, lowers: &[u32]) -> bool
    ensures { result ≡ are_different_of (upper ∷ lowers.now) }
{
    !contains(lowers, upper) && are_different(lowers)
}

// The upper and the lower masks of an entry: 0 and none where it isn't a cut.
#[tactic(auto, unfolding(crate::specs::Masks::sides_fault))]
fn sides(alloc: Global, names: &Names, table: &Table, role: Role) -> Result<(u32, List<u32>), Stop>
    requires { role ≡ role_of (table_view table.now) }
    ensures { Reads result (sides_fault (items_view names.now.values.now) (table_view table.now)) (λ p. (p.0 ≡ upper_at (items_view names.now.values.now) (table_view table.now)) × (p.1 ≡ lowers_of (items_view names.now.values.now) (table_view table.now))) }
{
    if same_role(role, Role::Cut) {
        let upper = upper(alloc, names, table)?;
        let lowers = lowers(alloc, names, table, upper)?;
        Ok((upper, lowers))
    } else {
        unwanted(alloc, table, "upper")?;
        unwanted(alloc, table, "lower")?;
        Ok((0, List::new(alloc)))
    }
}

// How an entry of the masks is read.
#[derive(Drop)]
pub(crate) struct MaskRule<'a> {
    pub names: &'a Names<'a>,
    pub scale: &'a Scale,
    pub ignored: &'a [(i16, i16)],
}

// The space, the width and the sides of an entry, after which it has no other key.
#[tactic(auto, unfolding(crate::specs::Masks::measures_fault))]
fn measures(
    alloc: Global,
    rule: &MaskRule,
    table: &Table,
    role: Role,
) -> Result<(i64, i64, (u32, List<u32>)), Stop>
    requires { role ≡ role_of (table_view table.now) }
    ensures { Reads result (measures_fault (measure_of rule.now.scale.now) (items_view rule.now.names.now.values.now) (table_view table.now)) (λ p. (p.0 ≡ length_of (measure_of rule.now.scale.now) (codes "space") (table_view table.now)) × (p.1 ≡ width_at (measure_of rule.now.scale.now) (table_view table.now)) × (p.2.0 ≡ upper_at (items_view rule.now.names.now.values.now) (table_view table.now)) × (p.2.1 ≡ lowers_of (items_view rule.now.names.now.values.now) (table_view table.now))) }
{
    let space = length(alloc, table, "space", rule.scale, 1)?;
    unwanted(alloc, table, "notch")?;
    let width = width(alloc, rule.scale, table, role)?;
    let sides = sides(alloc, rule.names, table, role)?;
    others(alloc, table, &MASK_KEYS)?;
    Ok((space, width, sides))
}

// The mask that an entry's table describes.
#[tactic(auto, unfolding(crate::specs::Masks::mask_table_fault, crate::specs::Masks::layer_fault))]
fn mask(alloc: Global, rule: &MaskRule, before: &[Mask], table: &Table) -> Result<Mask, Stop>
    ensures { Reads result (mask_table_fault (measure_of rule.now.scale.now) (items_view rule.now.names.now.values.now) rule.now.ignored.now before.now (table_view table.now)) (λ m. m ≡ mask_at (measure_of rule.now.scale.now) (items_view rule.now.names.now.values.now) (table_view table.now)) }
{
    let name = name(alloc, rule.names, before.len(), table)?;
    let role = role(alloc, before, table)?;
    let layer = layer_number(alloc, table, "layer")?;
    let datatype = datatype(alloc, rule.ignored, before, table, &layer)?;
    let note = note(alloc, rule.ignored, before, table, role)?;
    let (space, width, (upper, lowers)) = measures(alloc, rule, table, role)?;
    let name = name_text(alloc, name)?;
    Ok(Mask {
        name,
        role,
        layer,
        datatype,
        note,
        width,
        space,
        upper,
        lowers,
    })
}

impl Entry for MaskRule<'_> {
    type Item = Mask;

    ghost fault = { λ rule. mask_fault (measure_of rule.scale.now) (items_view rule.names.now.values.now) rule.ignored.now };

    ghost gives = { λ rule. mask_of (measure_of rule.scale.now) (items_view rule.names.now.values.now) };

    #[tactic(auto, unfolding(crate::specs::Masks::mask_fault, crate::specs::Masks::mask_of))]
    fn read(&self, alloc: Global, before: &[Mask], value: &Value) -> Result<Mask, Stop> {
        let table = entry_table(alloc, value)?;
        let mask = mask(alloc, self, before, table)?;
        Ok(mask)
    }
}
