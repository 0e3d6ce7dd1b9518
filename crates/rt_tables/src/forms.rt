//! The form of two tables: what they say but for their numbers.
ghost use Rattle.std.specs.Prelude.{◌≡◌, None, Some, IfErr, OnOk, is_some, option_map};
ghost use Rattle.rt_keys.specs.Faults.{Reads};
ghost use Rattle.rt_tables.specs.Forms.{name_at as name_in, upper_at, differs, same_flag as same_flag_of, same_name as same_name_of, same_on as same_on_of, mask_difference, enclose_difference, apart_difference, near_difference, lower_difference, kind_difference, difference as difference_of, HaveSameForm, IsTablesDiffer, RefusesTables};

use crate::comparing::{Compared, Tables, compare_at};
use rt_keys::TableError;
use rt_keys::stop::{Stop, bad_table, tested, tested_here};
use rt_keys::words::same_role;
use rt_tech::{Apart, Enclose, Kind, Mask, Near, Role, TableCause, Tech};
use std::alloc::Global;

// The name of a mask, by its number.
fn name_at(tech: &Tech, mask: u32) -> Option<&[u8]>
    ensures { option_map (λ s. s.now) result ≡ name_in tech.now mask }
{
    match tech.masks.as_slice().get(mask as usize) {
        Some(mask) => Some(mask.name.as_slice()),
        None => None,
    }
}

// Whether the two truth values are the same.
fn same_flag(ours: bool, theirs: bool) -> bool
    ensures { result ≡ same_flag_of ours theirs }
{
    ours == theirs
}

// Whether the two names are the same.
fn same_name(ours: Option<&[u8]>, theirs: Option<&[u8]>) -> bool
    ensures { result ≡ same_name_of (option_map (λ s. s.now) ours.entry) (option_map (λ s. s.now) theirs.entry) }
{
    match (ours, theirs) {
        (Some(ours), Some(theirs)) => ours == theirs,
        (None, None) => true,
        _ => false,
    }
}

// Whether the two masks, by their numbers in the two tables, have the same name.
fn are_alike(tables: &Tables, ours: u32, theirs: u32) -> bool
    ensures { result ≡ same_name_of (name_in tables.now.source.now ours) (name_in tables.now.target.now theirs) }
{
    same_name(name_at(tables.source, ours), name_at(tables.target, theirs))
}

// Whether the uppers of two cuts have the same name. It is, where no mask is a cut.
fn have_same_upper(tables: &Tables, ours: &Mask, theirs: &Mask) -> bool
    ensures { result ≡ same_name_of (upper_at tables.now.source.now ours.now) (upper_at tables.now.target.now theirs.now) }
{
    same_name(
        upper_of(tables.source, ours),
        upper_of(tables.target, theirs),
    )
}

// The name of a cut's upper.
fn upper_of<'a>(tech: &'a Tech, mask: &Mask) -> Option<&'a [u8]>
    ensures { option_map (λ s. s.now) result ≡ upper_at tech.now mask.now }
{
    if same_role(mask.role, Role::Cut) {
        name_at(tech, mask.upper)
    } else {
        None
    }
}

// Whether the two are both there, with the same name, or both not.
fn are_alike_where_there(tables: &Tables, ours: Option<u32>, theirs: Option<u32>) -> bool
    ensures { result ≡ same_on_of (option_map (name_in tables.now.source.now) ours) (option_map (name_in tables.now.target.now) theirs) }
{
    match (ours, theirs) {
        (Some(ours), Some(theirs)) => are_alike(tables, ours, theirs),
        (None, None) => true,
        _ => false,
    }
}

// Refuses the key unless the two tables say the same there.
fn same(alloc: Global, key: &str, holds: bool) -> Result<(), Stop>
    ensures { Reads result (differs key.now holds) (λ _. Unit {0}) }
{
    tested(alloc, key, TableCause::Clash, holds)
}

// Refuses the key unless the masks that it names in the two tables, by their numbers, have the same name.
fn same_mask(alloc: Global, key: &str, tables: &Tables, ours: u32, theirs: u32) -> Result<(), Stop>
    ensures { Reads result (differs key.now (same_name_of (name_in tables.now.source.now ours) (name_in tables.now.target.now theirs))) (λ _. Unit {0}) }
{
    same(alloc, key, are_alike(tables, ours, theirs))
}

impl Compared for u32 {
    ghost difference = { lower_difference };

    #[tactic(auto, unfolding(crate::specs::Forms::lower_difference))]
    fn compare(&self, alloc: Global, other: &u32, tables: &Tables) -> Result<(), Stop> {
        tested_here(alloc, TableCause::Clash, are_alike(tables, *self, *other))
    }
}

impl Compared for Mask {
    ghost difference = { mask_difference };

    #[tactic(auto, unfolding(crate::specs::Forms::mask_difference))]
    fn compare(&self, alloc: Global, other: &Mask, tables: &Tables) -> Result<(), Stop> {
        same(alloc, "name", self.name.as_slice() == other.name.as_slice())?;
        same(alloc, "role", same_role(self.role, other.role))?;
        same(
            alloc,
            "text",
            same_flag(self.note.is_some(), other.note.is_some()),
        )?;
        same(alloc, "upper", have_same_upper(tables, self, other))?;
        compare_at(
            alloc,
            "lower",
            tables,
            self.lowers.as_slice(),
            other.lowers.as_slice(),
        )
    }
}

impl Compared for Enclose {
    ghost difference = { enclose_difference };

    #[tactic(auto, unfolding(crate::specs::Forms::enclose_difference))]
    fn compare(&self, alloc: Global, other: &Enclose, tables: &Tables) -> Result<(), Stop> {
        same_mask(alloc, "cut", tables, self.cut, other.cut)?;
        same_mask(alloc, "mask", tables, self.mask, other.mask)
    }
}

impl Compared for Apart {
    ghost difference = { apart_difference };

    #[tactic(auto, unfolding(crate::specs::Forms::apart_difference))]
    fn compare(&self, alloc: Global, other: &Apart, tables: &Tables) -> Result<(), Stop> {
        same_mask(alloc, "a", tables, self.a, other.a)?;
        same_mask(alloc, "b", tables, self.b, other.b)?;
        same(
            alloc,
            "on",
            are_alike_where_there(tables, self.on, other.on),
        )
    }
}

impl Compared for Near {
    ghost difference = { near_difference };

    #[tactic(auto, unfolding(crate::specs::Forms::near_difference))]
    fn compare(&self, alloc: Global, other: &Near, tables: &Tables) -> Result<(), Stop> {
        same_mask(alloc, "mask", tables, self.mask, other.mask)
    }
}

impl Compared for Kind {
    ghost difference = { kind_difference };

    #[tactic(auto, unfolding(crate::specs::Forms::kind_difference))]
    fn compare(&self, alloc: Global, other: &Kind, tables: &Tables) -> Result<(), Stop> {
        same(alloc, "name", self.name.as_slice() == other.name.as_slice())?;
        same(alloc, "device", same_flag(self.device, other.device))?;
        compare_at(
            alloc,
            "inside",
            tables,
            self.inside.as_slice(),
            other.inside.as_slice(),
        )?;
        compare_at(
            alloc,
            "outside",
            tables,
            self.outside.as_slice(),
            other.outside.as_slice(),
        )
    }
}

// Refuses the first key at which the two tables differ.
#[tactic(auto, unfolding(crate::specs::Forms::difference))]
fn compare(alloc: Global, source: &Tech, target: &Tech) -> Result<(), Stop>
    ensures { Reads result (difference_of source.now target.now) (λ _. Unit {0}) }
{
    let tables = Tables { source, target };
    compare_at(
        alloc,
        "mask",
        &tables,
        source.masks.as_slice(),
        target.masks.as_slice(),
    )?;
    compare_at(
        alloc,
        "enclose",
        &tables,
        source.encloses.as_slice(),
        target.encloses.as_slice(),
    )?;
    same(
        alloc,
        "channel",
        same_flag(source.gates.is_some(), target.gates.is_some()),
    )?;
    compare_at(
        alloc,
        "apart",
        &tables,
        source.aparts.as_slice(),
        target.aparts.as_slice(),
    )?;
    compare_at(
        alloc,
        "kind",
        &tables,
        source.kinds.as_slice(),
        target.kinds.as_slice(),
    )
}

// The refusal of two tables that differ.
fn parted(alloc: Global, stop: Stop) -> TableError
    ensures { IsTablesDiffer stop result }
{
    match bad_table(alloc, stop) {
        TableError::BadTable { key, .. } => TableError::TablesDiffer { key },
        _ => TableError::OutOfMemory,
    }
}

/// Refuses two tables that don't have one form: that don't say the same but for their numbers. TablesDiffer names the
/// first key at which they differ: of the masks in order `name`, `role`, `text`, `upper` and `lower`, then of the
/// entries of `enclose`, then `channel`, then of `apart` and of `kind`. Where a key holds a mask's name, it is the
/// names that are compared. Where one list is longer, the key is that of its first further entry. (This project's own.)
pub fn same_form(alloc: Global, source: &Tech, target: &Tech) -> Result<(), TableError>
    ensures ok { OnOk result (HaveSameForm source.now target.now) }
    ensures err { IfErr result (RefusesTables source.now target.now) }
{
    match compare(alloc, source, target) {
        Ok(()) => Ok(()),
        Err(stop) => Err(parted(alloc, stop)),
    }
}
