//! How a claim is written.
ghost use Rattle.std.specs.Prelude.{◌≡◌, ◌++◌, ◌∷◌, ◌<◌, pos, length, map, OnOk, IfOk};
ghost use Rattle.std.specs.List.{flat_map};
ghost use Rattle.cert_lines.specs.Lines.{line_text};
ghost use Rattle.cert_text.specs.Claims.{axis_line, strip_line, column_line, each_strip, share_line, node_lines, proof_lines, one_proof, two_proofs, claim_lines, claim_text, HasSides, HasColumns, IsInForm};

use crate::claim::Claim;
use cert_lines::{Line, put_line};
use rt_base::OutOfMemory;
use rt_rows::{Node, Positions, Proof, Share};
use std::alloc::Global;

/// The one text of the claim, which has to be in form: its lists are of equal length, but where there is nothing upwards its bottoms and tops are
/// empty and its height is 0; each proof is exactly one tree, and divides by nothing below 1. It takes time that grows with the text. The one error
/// is a want of memory. (The format is this project's own.)
#[tactic(auto, unfolding(crate::specs::Claims::claim_text))]
pub fn write_cert(alloc: Global, claim: &Claim) -> Result<Vec<u8>, OutOfMemory>
    requires { IsInForm claim.now }
    ensures { IfOk result (λ text. text.items ≡ claim_text claim.now) }
{
    let mut out = Vec::new(alloc);
    put_claim(&mut out, claim)?;
    Ok(out)
}

// Appends the lines of a claim.
fn put_claim(out: &mut Vec<u8>, claim: &Claim) -> Result<(), OutOfMemory>
    requires { IsInForm claim.now }
    ensures { OnOk result (out.new.items ≡ out.old.items ++ flat_map line_text (claim_lines claim.now)) }
{
    put_line(out, &Line::Title)?;
    match claim {
        Claim::Done {
            at,
            across,
            upwards,
        } => put_done(out, at, across, upwards),
        Claim::NoneAcross { across } => put_none_across(out, across),
        Claim::NoneUpwards {
            at,
            across,
            upwards,
        } => put_none_upwards(out, at, across, upwards),
    }
}

// Appends what follows the title where there are positions.
fn put_done(
    out: &mut Vec<u8>,
    at: &Positions,
    across: &Proof,
    upwards: &Proof,
) -> Result<(), OutOfMemory>
    requires { HasSides at.now }
    ensures { OnOk result (out.new.items ≡ out.old.items ++ flat_map line_text (Line.Done at.now.width at.now.height ∷ axis_line at.now.axis ∷ (each_strip (strip_line at.now) (length at.now.l) ++ two_proofs across.now upwards.now))) }
{
    put_line(out, &done_line(at))?;
    put_axis(out, &at.axis)?;
    put_placed(out, at, across, upwards)
}

// The line of the extents.
fn done_line(at: &Positions) -> Line
    ensures { result ≡ Line.Done at.now.width at.now.height }
{
    Line::Done {
        width: i128::from(at.width),
        height: i128::from(at.height),
    }
}

// Appends a line for each strip, and the proofs.
fn put_placed(
    out: &mut Vec<u8>,
    at: &Positions,
    across: &Proof,
    upwards: &Proof,
) -> Result<(), OutOfMemory>
    requires { HasSides at.now }
    ensures { OnOk result (out.new.items ≡ out.old.items ++ flat_map line_text (each_strip (strip_line at.now) (length at.now.l) ++ two_proofs across.now upwards.now)) }
{
    put_strips(out, at)?;
    put_two(out, across, upwards)
}

// Appends what follows the title where there is nothing across.
fn put_none_across(out: &mut Vec<u8>, across: &Proof) -> Result<(), OutOfMemory>
    ensures { OnOk result (out.new.items ≡ out.old.items ++ flat_map line_text (Line.NoneAcross ∷ one_proof across.now)) }
{
    put_line(out, &Line::NoneAcross)?;
    put_line(out, &Line::Across)?;
    put_nodes(out, across.nodes.as_slice())?;
    put_line(out, &Line::End)
}

// Appends what follows the title where there is nothing upwards.
fn put_none_upwards(
    out: &mut Vec<u8>,
    at: &Positions,
    across: &Proof,
    upwards: &Proof,
) -> Result<(), OutOfMemory>
    requires { HasColumns at.now }
    ensures { OnOk result (out.new.items ≡ out.old.items ++ flat_map line_text (Line.NoneUpwards at.now.width ∷ axis_line at.now.axis ∷ (each_strip (column_line at.now) (length at.now.l) ++ two_proofs across.now upwards.now))) }
{
    put_line(
        out,
        &Line::NoneUpwards {
            width: i128::from(at.width),
        },
    )?;
    put_axis(out, &at.axis)?;
    put_gauged(out, at, across, upwards)
}

// Appends a line for the columns of each strip, and the proofs.
fn put_gauged(
    out: &mut Vec<u8>,
    at: &Positions,
    across: &Proof,
    upwards: &Proof,
) -> Result<(), OutOfMemory>
    requires { HasColumns at.now }
    ensures { OnOk result (out.new.items ≡ out.old.items ++ flat_map line_text (each_strip (column_line at.now) (length at.now.l) ++ two_proofs across.now upwards.now)) }
{
    put_columns(out, at)?;
    put_two(out, across, upwards)
}

// Appends the line of the axis.
fn put_axis(out: &mut Vec<u8>, axis: &Option<i64>) -> Result<(), OutOfMemory>
    ensures { OnOk result (out.new.items ≡ out.old.items ++ line_text (axis_line axis.now)) }
{
    match axis {
        None => put_line(out, &Line::NoAxis),
        Some(twice) => put_line(
            out,
            &Line::Axis {
                twice: i128::from(*twice),
            },
        ),
    }
}

// Appends a line for each strip.
fn put_strips(out: &mut Vec<u8>, at: &Positions) -> Result<(), OutOfMemory>
    requires { HasSides at.now }
    ensures { OnOk result (out.new.items ≡ out.old.items ++ flat_map line_text (each_strip (strip_line at.now) (length at.now.l))) }
{
    for i in 0..at.l.as_slice().len() {
        put_strip(out, at, i)?;
    }
    Ok(())
}

// Appends the line of a strip.
fn put_strip(out: &mut Vec<u8>, at: &Positions, i: usize) -> Result<(), OutOfMemory>
    requires sides { HasSides at.now }
    requires there { i < length at.now.l }
    ensures { OnOk result (out.new.items ≡ out.old.items ++ line_text (strip_line at.now i)) }
{
    put_line(
        out,
        &Line::Strip {
            number: i as i128,
            left: i128::from(at.l.as_slice()[i]),
            bottom: i128::from(at.b.as_slice()[i]),
            right: i128::from(at.r.as_slice()[i]),
            top: i128::from(at.t.as_slice()[i]),
        },
    )
}

// Appends a line for the columns of each strip.
fn put_columns(out: &mut Vec<u8>, at: &Positions) -> Result<(), OutOfMemory>
    requires { HasColumns at.now }
    ensures { OnOk result (out.new.items ≡ out.old.items ++ flat_map line_text (each_strip (column_line at.now) (length at.now.l))) }
{
    for i in 0..at.l.as_slice().len() {
        put_column(out, at, i)?;
    }
    Ok(())
}

// Appends the line of the columns of a strip.
fn put_column(out: &mut Vec<u8>, at: &Positions, i: usize) -> Result<(), OutOfMemory>
    requires columns { HasColumns at.now }
    requires there { i < length at.now.l }
    ensures { OnOk result (out.new.items ≡ out.old.items ++ line_text (column_line at.now i)) }
{
    put_line(
        out,
        &Line::Column {
            number: i as i128,
            left: i128::from(at.l.as_slice()[i]),
            right: i128::from(at.r.as_slice()[i]),
        },
    )
}

// Appends two proofs with their headings, and the end.
fn put_two(out: &mut Vec<u8>, across: &Proof, upwards: &Proof) -> Result<(), OutOfMemory>
    ensures { OnOk result (out.new.items ≡ out.old.items ++ flat_map line_text (two_proofs across.now upwards.now)) }
{
    put_line(out, &Line::Across)?;
    put_nodes(out, across.nodes.as_slice())?;
    put_line(out, &Line::Upwards)?;
    put_nodes(out, upwards.nodes.as_slice())?;
    put_line(out, &Line::End)
}

// Appends the lines of nodes.
fn put_nodes(out: &mut Vec<u8>, nodes: &[Node]) -> Result<(), OutOfMemory>
    ensures { OnOk result (out.new.items ≡ out.old.items ++ flat_map line_text (flat_map node_lines nodes.now)) }
{
    for node in nodes {
        put_node(out, node)?;
    }
    Ok(())
}

// Appends the lines of a node.
fn put_node(out: &mut Vec<u8>, node: &Node) -> Result<(), OutOfMemory>
    ensures { OnOk result (out.new.items ≡ out.old.items ++ flat_map line_text (node_lines node.now)) }
{
    match node {
        Node::Branch { var, at } => put_line(
            out,
            &Line::Branch {
                var: *var,
                at: i128::from(*at),
            },
        ),
        Node::Cut { over, shares } => put_sum(
            out,
            &Line::Cut {
                over: *over,
                shares: count(shares.as_slice()),
            },
            shares.as_slice(),
        ),
        Node::Bound { over, shares } => put_sum(
            out,
            &Line::Bound {
                over: *over,
                shares: count(shares.as_slice()),
            },
            shares.as_slice(),
        ),
        Node::Empty { over, shares } => put_sum(
            out,
            &Line::Empty {
                over: *over,
                shares: count(shares.as_slice()),
            },
            shares.as_slice(),
        ),
    }
}

// Appends the line of a node and those of its shares.
fn put_sum(out: &mut Vec<u8>, line: &Line, shares: &[Share]) -> Result<(), OutOfMemory>
    ensures { OnOk result (out.new.items ≡ out.old.items ++ flat_map line_text (line.now ∷ map share_line shares.now)) }
{
    put_line(out, line)?;
    put_shares(out, shares)
}

// How many shares there are.
fn count(shares: &[Share]) -> i128
    ensures { result ≡ pos (length shares.now) }
{
    shares.len() as i128
}

// Appends a line for each share.
fn put_shares(out: &mut Vec<u8>, shares: &[Share]) -> Result<(), OutOfMemory>
    ensures { OnOk result (out.new.items ≡ out.old.items ++ flat_map line_text (map share_line shares.now)) }
{
    for share in shares {
        put_line(
            out,
            &Line::Share {
                times: share.times,
                of: share.of,
            },
        )?;
    }
    Ok(())
}
