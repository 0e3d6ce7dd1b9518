//! Rule tables as documents, key by key.
ghost use Rattle.std.specs.Prelude.{◌≡◌, ℕ, ℤ, pos, codes, bytes_eq, ◌≤◌, length as count_of};
ghost use Rattle.toml.specs.View.{view, table_view, items_view, array_view};
ghost use Rattle.rt_tech.specs.Tech.{IsGrid};
ghost use Rattle.rt_keys.specs.Document.{word as word_at, list as list_at, number as number_at};
ghost use Rattle.rt_keys.specs.Faults.{Reads};
ghost use Rattle.rt_keys.specs.Numbers.{number_fault, measure_of};
ghost use Rattle.rt_tables.specs.Kinds.{kinds_of};
ghost use Rattle.rt_tables.specs.Rules.{aparts_of};
ghost use Rattle.rt_tables.specs.Tables.{is_units, units_of, units_fault, unlisted_fault, ignored_fault, ignored_of, ignore_fault, ignored_in, come_together as come_together_of, masks_of, masks_listed as masks_listed_fault, later_rules_fault, rules_fault, listed_fault, contents_fault, tech_fault, tech_in, AreRules, IsTechAnswer};

use crate::context::Masks;
use crate::kinds::kinds;
use crate::masks::{MaskRule, has_role};
use crate::rules::{Rules, aparts, encloses, gates};
use hex::FromHex;
use rt_base::List;
use rt_keys::TableError;
use rt_keys::entries::{Entry, entries};
use rt_keys::finding::names;
use rt_keys::keys::{
    document, entry_list, has, list, others, unwanted, values_if_there, word, word_if_there,
};
use rt_keys::names::Names;
use rt_keys::numbers::{count, number_within, pair};
use rt_keys::scale::Scale;
use rt_keys::stop::{Stop, at, bad_table, refused, tested};
use rt_tech::limits::{GRID_LIMIT, LEAST_LAYER, MASK_LIMIT};
use rt_tech::{Apart, Enclose, Gates, Kind, Mask, Role, TableCause, Tech, Which};
use std::alloc::Global;
use toml::{Table, Value};

// The keys of a table.
const TABLE_KEYS: [&str; 10] = [
    "version", "grid", "units", "unlisted", "ignore", "mask", "enclose", "channel", "apart", "kind",
];

/// The rule table that the bytes are: a TOML document that keeps every rule of a table. A source table's lengths are
/// kept as they are, and a target table's in steps.
///
/// # Errors
///
/// `BadToml` exactly where the bytes aren't a TOML document. `BadTable` where a key is at fault: the first key in the
/// order in which a table is read, with the first cause at it. `OutOfMemory` where there is no memory.
pub fn read_tech(alloc: Global, bytes: &[u8], which: Which) -> Result<Tech, TableError>
    ensures { IsTechAnswer which bytes.now result }
{
    match document(alloc, bytes) {
        Ok(Some(table)) => match tech(alloc, &table, which) {
            Ok(tech) => Ok(tech),
            Err(stop) => Err(bad_table(alloc, stop)),
        },
        Ok(None) => Err(TableError::BadToml),
        Err(_) => Err(TableError::OutOfMemory),
    }
}

// The grid of a document.
fn grid(alloc: Global, table: &Table) -> Result<i64, Stop>
    ensures { Reads result (number_fault (pos 1) GRID_LIMIT (codes "grid") (table_view table.now)) (λ n. (n ≡ number_at (codes "grid") (table_view table.now)) × IsGrid n) }
{
    let grid = number_within(alloc, table, "grid", 1, GRID_LIMIT)?;
    Ok(grid)
}

// The units of a document.
#[tactic(auto, unfolding(crate::specs::Tables::units_fault))]
fn units(alloc: Global, table: &Table) -> Result<[u8; 16], Stop>
    ensures { Reads result (units_fault (table_view table.now)) (λ u. u ≡ units_of (word_at (codes "units") (table_view table.now))) }
{
    let digits = word(alloc, table, "units")?;
    match <[u8; 16] as FromHex>::from_hex(digits) {
        Ok(units) => Ok(units),
        Err(_) => Err(refused(alloc, "units", TableCause::Range)),
    }
}

// Whether a document passes over the layer pairs that it doesn't name.
#[tactic(auto, unfolding(crate::specs::Tables::unlisted_fault))]
fn drop_unlisted(alloc: Global, table: &Table) -> Result<bool, Stop>
    ensures { Reads result (unlisted_fault (table_view table.now)) (λ b. b ≡ bytes_eq (word_at (codes "unlisted") (table_view table.now)) (codes "ignore")) }
{
    match word_if_there(alloc, table, "unlisted")? {
        None => Ok(false),
        Some(word) => {
            let is_allowed = word == "refuse" || word == "ignore";
            tested(alloc, "unlisted", TableCause::Range, is_allowed)?;
            Ok(word == "ignore")
        }
    }
}

// How an entry of the ignored pairs is read.
#[derive(Drop)]
struct IgnoredRule;

impl Entry for IgnoredRule {
    type Item = (i16, i16);

    ghost fault = { λ rule before. ignored_fault };

    ghost gives = { λ rule. ignored_of };

    #[tactic(auto, unfolding(crate::specs::Tables::ignored_fault, crate::specs::Tables::ignored_of))]
    fn read(&self, alloc: Global, _: &[(i16, i16)], value: &Value) -> Result<(i16, i16), Stop> {
        let values = entry_list(alloc, value)?.as_slice();
        let pair = pair(alloc, values, &(LEAST_LAYER, -1))?;
        Ok(pair)
    }
}

// The ignored pairs of a document.
#[tactic(auto, unfolding(crate::specs::Tables::ignore_fault))]
fn ignored(alloc: Global, table: &Table) -> Result<List<(i16, i16)>, Stop>
    ensures { Reads result (ignore_fault (table_view table.now)) (λ ps. ps ≡ ignored_in (table_view table.now)) }
{
    let values = values_if_there(alloc, table, "ignore")?;
    let ignored = at(alloc, "ignore", entries(alloc, &IgnoredRule, values))?;
    Ok(ignored)
}

// Whether the masks have a gate exactly where they have an active.
fn come_together(masks: &[Mask]) -> bool
    ensures { result ≡ come_together_of masks.now }
{
    if has_role(masks, Role::Gate) {
        has_role(masks, Role::Active)
    } else {
        !has_role(masks, Role::Active)
    }
}

// The masks of a document, by the entries of their list.
#[tactic(auto, unfolding(crate::specs::Tables::masks_listed), using(rt_keys::proofs::Lookups::count_of_entries))]
fn masks_listed(
    alloc: Global,
    names: &Names,
    scale: &Scale,
    ignored: &[(i16, i16)],
) -> Result<List<Mask>, Stop>
    ensures { Reads result (masks_listed_fault (measure_of scale.now) ignored.now (items_view names.now.values.now)) (λ ms. (ms ≡ masks_of (measure_of scale.now) (items_view names.now.values.now)) × (count_of ms ≤ MASK_LIMIT)) }
{
    let rule = MaskRule {
        names,
        scale,
        ignored,
    };
    let masks = at(alloc, "mask", entries(alloc, &rule, names.values))?;
    let come_together = come_together(masks.as_slice());
    tested(alloc, "mask", TableCause::Missing, come_together)?;
    let is_allowed = 1 <= count(names.values) && count(names.values) <= MASK_LIMIT;
    tested(alloc, "mask", TableCause::Range, is_allowed)?;
    Ok(masks)
}

// The distances and the kinds of a document, after which it has no other key.
#[tactic(auto, unfolding(crate::specs::Tables::later_rules_fault))]
fn later_rules(
    alloc: Global,
    masks: &Masks,
    table: &Table,
) -> Result<(List<Apart>, List<Kind>), Stop>
    ensures { Reads result (later_rules_fault (measure_of masks.now.scale.now) (items_view masks.now.names.now.values.now) masks.now.masks.now (table_view table.now)) (λ p. (p.0 ≡ aparts_of (measure_of masks.now.scale.now) (items_view masks.now.names.now.values.now) masks.now.masks.now (table_view table.now)) × (p.1 ≡ kinds_of (measure_of masks.now.scale.now) (items_view masks.now.names.now.values.now) masks.now.masks.now (table_view table.now))) }
{
    let aparts = aparts(alloc, masks, table)?;
    let kinds = kinds(alloc, masks, table)?;
    unwanted(alloc, table, "resistor")?;
    others(alloc, table, &TABLE_KEYS)?;
    Ok((aparts, kinds))
}

// What a document says after its masks.
#[tactic(auto, unfolding(crate::specs::Tables::rules_fault))]
fn rules_after(alloc: Global, masks: &Masks, table: &Table) -> Result<Rules, Stop>
    ensures { Reads result (rules_fault (measure_of masks.now.scale.now) (items_view masks.now.names.now.values.now) masks.now.masks.now (table_view table.now)) (AreRules (measure_of masks.now.scale.now) (items_view masks.now.names.now.values.now) masks.now.masks.now (table_view table.now)) }
{
    let encloses = encloses(alloc, masks, table)?;
    let gates = gates(alloc, masks, table)?;
    let (aparts, kinds) = later_rules(alloc, masks, table)?;
    Ok(Rules {
        encloses,
        gates,
        aparts,
        kinds,
    })
}

// What a document says after these masks.
fn rules_with(
    alloc: Global,
    names: &Names,
    masks: &[Mask],
    scale: &Scale,
    table: &Table,
) -> Result<Rules, Stop>
    requires { count_of masks.now ≤ MASK_LIMIT }
    ensures { Reads result (rules_fault (measure_of scale.now) (items_view names.now.values.now) masks.now (table_view table.now)) (AreRules (measure_of scale.now) (items_view names.now.values.now) masks.now (table_view table.now)) }
{
    let masks = Masks {
        names,
        masks,
        scale,
    };
    rules_after(alloc, &masks, table)
}

// The masks of a document, by the entries of their list, and what it says after them.
#[tactic(auto, unfolding(crate::specs::Tables::listed_fault))]
fn listed(
    alloc: Global,
    names: &Names,
    scale: &Scale,
    ignored: &[(i16, i16)],
    table: &Table,
) -> Result<(List<Mask>, Rules), Stop>
    ensures { Reads result (listed_fault (measure_of scale.now) ignored.now (items_view names.now.values.now) (table_view table.now)) (λ p. (p.0 ≡ masks_of (measure_of scale.now) (items_view names.now.values.now)) × AreRules (measure_of scale.now) (items_view names.now.values.now) (masks_of (measure_of scale.now) (items_view names.now.values.now)) (table_view table.now) p.1) }
{
    let masks = masks_listed(alloc, names, scale, ignored)?;
    let rules = rules_with(alloc, names, masks.as_slice(), scale, table)?;
    Ok((masks, rules))
}

// The masks of a document, and what it says after them.
#[tactic(auto, unfolding(crate::specs::Tables::contents_fault))]
fn contents(
    alloc: Global,
    scale: &Scale,
    ignored: &[(i16, i16)],
    table: &Table,
) -> Result<(List<Mask>, Rules), Stop>
    ensures { Reads result (contents_fault (measure_of scale.now) ignored.now (table_view table.now)) (λ p. (p.0 ≡ masks_of (measure_of scale.now) (list_at (codes "mask") (table_view table.now))) × AreRules (measure_of scale.now) (list_at (codes "mask") (table_view table.now)) (masks_of (measure_of scale.now) (list_at (codes "mask") (table_view table.now))) (table_view table.now) p.1) }
{
    let values = list(alloc, table, "mask")?.as_slice();
    let names = names(alloc, values)?;
    let contents = listed(alloc, &names, scale, ignored, table)?;
    Ok(contents)
}

// The table that a document is.
#[tactic(auto, unfolding(crate::specs::Tables::tech_fault, crate::specs::Tables::tech_in))]
fn tech(alloc: Global, table: &Table, which: Which) -> Result<Tech, Stop>
    ensures { Reads result (tech_fault which (table_view table.now)) (λ t. t ≡ tech_in which (table_view table.now)) }
{
    number_within(alloc, table, "version", 1, 1)?;
    let grid = grid(alloc, table)?;
    let units = units(alloc, table)?;
    let drop_unlisted = drop_unlisted(alloc, table)?;
    let scale = Scale { which, grid };
    let ignored = ignored(alloc, table)?;
    let (masks, rules) = contents(alloc, &scale, ignored.as_slice(), table)?;
    Ok(Tech {
        grid,
        units,
        masks,
        encloses: rules.encloses,
        gates: rules.gates,
        aparts: rules.aparts,
        kinds: rules.kinds,
        ignored,
        drop_unlisted,
    })
}
