//! The search for what breaks the space rule of a mask.
ghost use Rattle.std.specs.Prelude.{◌≡◌, ◌<◌, ◌^◌, length, IfOk, MatchOption};
ghost use Rattle.rt_rules.specs.Space.{KeepsSpace};
ghost use Rattle.rt_tech.specs.Tech.{IsLength};
ghost use Rattle.rt_drc.specs.Rows.{AreRowsOf, cells_of, turned_cells_of, ShowsSpace};
ghost use Rattle.rt_pieces.specs.Members.{held_by};
ghost use Rattle.rt_drc.specs.Spacing.{AreFew, AreFamilies, AreReaches};

use crate::corners::corner_contact;
use crate::gaps::narrow_gap;
use crate::pieces::near_pieces;
use crate::reach::Reach;
use crate::rows::{Rows, Witness};
use rt_base::{Cell, OutOfMemory};
use std::alloc::Global;

/// What breaks the space rule `space` of mask number `m`, if anything does: a gap of a row or of a column that is too narrow, two pieces that are
/// too near, or cells that meet at a corner alone. `rows` are the strips of all masks, `columns` those of the same cells with columns and rows exchanged.
/// The one error is a want of memory.
pub(crate) fn space_breach(
    alloc: Global,
    rows: &Rows<'_>,
    columns: &Rows<'_>,
    masks: u32,
    m: u32,
    space: i64,
) -> Result<Option<Witness>, OutOfMemory>
    requires mask { m < masks }
    requires space { IsLength space }
    requires few_rows { length rows.now.strips.now < 2 ^ 32 }
    requires few_columns { length columns.now.strips.now < 2 ^ 32 }
    requires rows { AreRowsOf (cells_of rows.now.strips.now) masks rows.now.strips.now rows.now.seams.now }
    requires columns { AreRowsOf (turned_cells_of rows.now.strips.now) masks columns.now.strips.now columns.now.seams.now }
    ensures { IfOk result (λ found. MatchOption found (KeepsSpace space (cells_of rows.now.strips.now m)) (ShowsSpace space (cells_of rows.now.strips.now m))) }
{
    let gaps = Reach {
        across: space,
        upwards: 0,
    };
    let pieces = Reach {
        across: space,
        upwards: space,
    };
    breach_of(alloc, rows, columns, m, &gaps, &pieces)
}

// What breaks the space rule of a mask, by its strips. `gaps` is how far the gaps of rows and columns reach, `pieces` how far pieces do.
fn breach_of(
    alloc: Global,
    rows: &Rows<'_>,
    columns: &Rows<'_>,
    m: u32,
    gaps: &Reach,
    pieces: &Reach,
) -> Result<Option<Witness>, OutOfMemory>
    requires few { AreFew rows.now columns.now }
    requires family { AreFamilies m rows.now columns.now }
    requires reaches { AreReaches gaps.now pieces.now }
    ensures { IfOk result (λ found. MatchOption found
        (KeepsSpace gaps.now.across (held_by m rows.now.strips.now))
        (ShowsSpace gaps.now.across (held_by m rows.now.strips.now))) }
{
    if let Some(gap) = narrow_gap(alloc, rows.strips, m, gaps)? {
        return Ok(Some(gap));
    }
    if let Some(gap) = narrow_gap(alloc, columns.strips, m, gaps)? {
        return Ok(Some(turned(&gap)));
    }
    if let Some(corner) = corner_contact(rows, m) {
        return Ok(Some(corner));
    }
    near_pieces(alloc, rows, m, pieces)
}

// The witness with columns and rows exchanged.
fn turned(witness: &Witness) -> Witness
    ensures { result ≡ record { p = record { x = witness.now.p.y; y = witness.now.p.x }; q = record { x = witness.now.q.y; y = witness.now.q.x }; found = witness.now.found } }
{
    Witness {
        p: Cell {
            x: witness.p.y,
            y: witness.p.x,
        },
        q: Cell {
            x: witness.q.y,
            y: witness.q.x,
        },
        found: witness.found,
    }
}
