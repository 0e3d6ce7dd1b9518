//! The claim that lines tell. Lines that are no claim's give some claim.
ghost use Rattle.std.specs.Prelude.{◌≡◌, ◌++◌, [], pos, All, map, drop, slice_get, OnOk, IfOk};
ghost use Rattle.cert_lines.specs.Limits.{IsPlace, IsWithin};
ghost use Rattle.cert_text.specs.Building.{is_heading, before_heading, behind_heading, side_of, first_shares, first_node, one_node_more, nodes_of, proof_of, axis_of, placed_of, gauged_of, second_of, claim_by, claim_with, claim_of};

use crate::claim::Claim;
use cert_lines::Line;
use rt_base::{List, OutOfMemory};
use rt_rows::{Node, Positions, Proof, Share};
use std::alloc::Global;

/// A line that parts a certificate.
#[derive(Clone, Copy, Drop)]
pub enum Heading {
    /// Before the tree across.
    Across,
    /// Before the tree upwards.
    Upwards,
    /// At the end.
    End,
}

/// A side of a strip.
#[derive(Clone, Copy, Drop)]
pub enum Side {
    /// The left one.
    Left,
    /// The bottom.
    Bottom,
    /// The right one.
    Right,
    /// The top.
    Top,
}

// The lines before a heading.
fn before_heading(heading: Heading, lines: &[Line]) -> &[Line]
    ensures { result.now ≡ before_heading heading lines.now }
{
    for i in 0..lines.len() {
        if is_heading(heading, &lines[i]) {
            return &lines[..i];
        }
    }
    lines
}

// The lines behind a heading.
fn behind_heading(heading: Heading, lines: &[Line]) -> &[Line]
    ensures { result.now ≡ behind_heading heading lines.now }
{
    for i in 0..lines.len() {
        if is_heading(heading, &lines[i]) {
            return &lines[i + 1..];
        }
    }
    &[]
}

// Whether the line is that heading.
fn is_heading(heading: Heading, line: &Line) -> bool
    ensures { result ≡ is_heading heading line.now }
{
    match (heading, *line) {
        (Heading::Across, Line::Across) => true,
        (Heading::Upwards, Line::Upwards) => true,
        (Heading::End, Line::End) => true,
        _ => false,
    }
}

// The side that a line on a strip tells.
fn side_of(side: Side, line: &Line) -> i64
    ensures { IsPlace (side_of side line.now) → result ≡ side_of side line.now }
{
    match (side, *line) {
        (Side::Left, Line::Strip { left, .. }) => place(&left),
        (Side::Bottom, Line::Strip { bottom, .. }) => place(&bottom),
        (Side::Right, Line::Strip { right, .. }) => place(&right),
        (Side::Top, Line::Strip { top, .. }) => place(&top),
        (Side::Left, Line::Column { left, .. }) => place(&left),
        (Side::Right, Line::Column { right, .. }) => place(&right),
        _ => 0,
    }
}

// A place as the positions have it.
fn place(number: &i128) -> i64
    ensures { IsPlace number.now → result ≡ number.now }
{
    match i64::try_from(*number) {
        Ok(number) => number,
        Err(_) => 0,
    }
}

// The shares that the lines begin with.
fn first_shares(alloc: Global, lines: &[Line]) -> Result<List<Share>, OutOfMemory>
    ensures { IfOk result (λ shares. shares ≡ first_shares lines.now) }
{
    let mut shares = List::new(alloc);
    for i in 0..lines.len() {
        match lines[i] {
            Line::Share { times, of } => shares.push(Share { times, of })?,
            _ => return Ok(shares),
        }
    }
    Ok(shares)
}

/// The claim of the lines.
pub fn claim_of(alloc: Global, lines: &[Line]) -> Result<Claim, OutOfMemory>
    ensures { IfOk result (λ claim. All IsWithin lines.now → claim ≡ claim_of lines.now) }
{
    let header = before_heading(Heading::Across, lines);
    let body = behind_heading(Heading::Across, lines);
    let claim = claim_with(alloc, header, body)?;
    Ok(claim)
}

// The claim of a header and of what stands behind it.
fn claim_with(alloc: Global, header: &[Line], body: &[Line]) -> Result<Claim, OutOfMemory>
    ensures { IfOk result (λ claim. All IsWithin header.now → All IsWithin body.now → claim ≡ claim_with header.now body.now) }
{
    match second_line(header) {
        Some(line) => {
            let claim = claim_by(alloc, &line, header, body)?;
            Ok(claim)
        }
        None => none_across_of(alloc, body),
    }
}

// The second line of a header.
fn second_line(header: &[Line]) -> Option<Line>
    ensures { result ≡ slice_get header.now 1 }
{
    header.get(1).copied()
}

// The claim of a header with that second line, and of what stands behind it.
fn claim_by(
    alloc: Global,
    line: &Line,
    header: &[Line],
    body: &[Line],
) -> Result<Claim, OutOfMemory>
    ensures { IfOk result (λ claim. IsWithin line.now → All IsWithin header.now → All IsWithin body.now → claim ≡ claim_by (Some line.now) header.now body.now) }
{
    match *line {
        Line::Done { width, height } => {
            let extents = (place(&width), place(&height));
            let claim = done_of(alloc, &extents, header, body)?;
            Ok(claim)
        }
        Line::NoneUpwards { width } => {
            let extent = place(&width);
            let claim = none_upwards_of(alloc, &extent, header, body)?;
            Ok(claim)
        }
        _ => none_across_of(alloc, body),
    }
}

// The claim of positions.
fn done_of(
    alloc: Global,
    extents: &(i64, i64),
    header: &[Line],
    body: &[Line],
) -> Result<Claim, OutOfMemory>
    ensures { IfOk result (λ claim. IsPlace extents.now.0 → IsPlace extents.now.1 → All IsWithin header.now → All IsWithin body.now → claim ≡ Claim.Done (placed_of extents.now.0 extents.now.1 header.now) (proof_of (before_heading Heading.Upwards body.now)) (second_of body.now)) }
{
    let across = proof_of(alloc, before_heading(Heading::Upwards, body))?;
    let upwards = second_of(alloc, body)?;
    let at = placed_of(alloc, extents, header)?;
    Ok(Claim::Done {
        at,
        across,
        upwards,
    })
}

// The claim that there are no positions upwards.
fn none_upwards_of(
    alloc: Global,
    width: &i64,
    header: &[Line],
    body: &[Line],
) -> Result<Claim, OutOfMemory>
    ensures { IfOk result (λ claim. IsPlace width.now → All IsWithin header.now → All IsWithin body.now → claim ≡ Claim.NoneUpwards (gauged_of width.now header.now) (proof_of (before_heading Heading.Upwards body.now)) (second_of body.now)) }
{
    let across = proof_of(alloc, before_heading(Heading::Upwards, body))?;
    let upwards = second_of(alloc, body)?;
    let at = gauged_of(alloc, width, header)?;
    Ok(Claim::NoneUpwards {
        at,
        across,
        upwards,
    })
}

// The claim that there are no positions across.
fn none_across_of(alloc: Global, body: &[Line]) -> Result<Claim, OutOfMemory>
    ensures { IfOk result (λ claim. All IsWithin body.now → claim ≡ Claim.NoneAcross (proof_of (before_heading Heading.End body.now))) }
{
    let across = proof_of(alloc, before_heading(Heading::End, body))?;
    Ok(Claim::NoneAcross { across })
}

// The second proof of a body.
fn second_of(alloc: Global, body: &[Line]) -> Result<Proof, OutOfMemory>
    ensures { IfOk result (λ proof. All IsWithin body.now → proof ≡ second_of body.now) }
{
    let behind = behind_heading(Heading::Upwards, body);
    let proof = proof_of(alloc, before_heading(Heading::End, behind))?;
    Ok(proof)
}

// The positions of a header.
fn placed_of(alloc: Global, extents: &(i64, i64), header: &[Line]) -> Result<Positions, OutOfMemory>
    ensures { IfOk result (λ at. IsPlace extents.now.0 → IsPlace extents.now.1 → All IsWithin header.now → at ≡ placed_of extents.now.0 extents.now.1 header.now) }
{
    let strips = behind_three(header);
    let axis = axis_of(header);
    let l = sides(alloc, Side::Left, strips)?;
    let r = sides(alloc, Side::Right, strips)?;
    let b = sides(alloc, Side::Bottom, strips)?;
    let t = sides(alloc, Side::Top, strips)?;
    Ok(Positions {
        l,
        r,
        b,
        t,
        width: extents.0,
        height: extents.1,
        axis,
    })
}

// The columns of a header.
fn gauged_of(alloc: Global, width: &i64, header: &[Line]) -> Result<Positions, OutOfMemory>
    ensures { IfOk result (λ at. IsPlace width.now → All IsWithin header.now → at ≡ gauged_of width.now header.now) }
{
    let strips = behind_three(header);
    let axis = axis_of(header);
    let l = sides(alloc, Side::Left, strips)?;
    let r = sides(alloc, Side::Right, strips)?;
    Ok(Positions {
        l,
        r,
        b: List::new(alloc),
        t: List::new(alloc),
        width: *width,
        height: 0,
        axis,
    })
}

// The lines behind the first three.
fn behind_three(header: &[Line]) -> &[Line]
    ensures { result.now ≡ drop 3 header.now }
{
    match header.get(3..) {
        Some(strips) => strips,
        None => &[],
    }
}

// The axis that a header tells.
fn axis_of(header: &[Line]) -> Option<i64>
    ensures { All IsWithin header.now → result ≡ axis_of header.now }
{
    match header.get(2) {
        Some(Line::Axis { twice }) => Some(place(twice)),
        _ => None,
    }
}

// A side of each strip.
fn sides(alloc: Global, side: Side, lines: &[Line]) -> Result<List<i64>, OutOfMemory>
    ensures { IfOk result (λ places. All (λ line. IsPlace (side_of side line)) lines.now → places ≡ map (side_of side) lines.now) }
{
    let mut places = List::new(alloc);
    for line in lines {
        places.push(side_of(side, line))?;
    }
    Ok(places)
}

// The proof of the lines.
fn proof_of(alloc: Global, lines: &[Line]) -> Result<Proof, OutOfMemory>
    ensures { IfOk result (λ proof. All IsWithin lines.now → proof ≡ proof_of lines.now) }
{
    let nodes = nodes_of(alloc, lines)?;
    Ok(Proof { nodes })
}

// The nodes of the lines.
fn nodes_of(alloc: Global, lines: &[Line]) -> Result<List<Node>, OutOfMemory>
    ensures { IfOk result (λ nodes. All IsWithin lines.now → nodes ≡ nodes_of lines.now) }
{
    let mut nodes = List::new(alloc);
    for i in 0..lines.len() {
        add_node(alloc, &mut nodes, &lines[i..])?;
    }
    Ok(nodes)
}

// Adds the node that the lines begin with, if they begin with one.
fn add_node(alloc: Global, nodes: &mut List<Node>, lines: &[Line]) -> Result<(), OutOfMemory>
    ensures { OnOk result (All IsWithin lines.now → nodes.new ≡ one_node_more nodes.old (first_node lines.now)) }
{
    match node_of(alloc, lines)? {
        Some(node) => nodes.push(node),
        None => Ok(()),
    }
}

// The node that the lines begin with, if they begin with one.
fn node_of(alloc: Global, lines: &[Line]) -> Result<Option<Node>, OutOfMemory>
    ensures { IfOk result (λ node. All IsWithin lines.now → node ≡ first_node lines.now) }
{
    match lines.split_first() {
        Some((Line::Branch { var, at }, _)) => Ok(Some(Node::Branch {
            var: *var,
            at: place(at),
        })),
        Some((Line::Cut { over, .. }, behind)) => {
            let shares = first_shares(alloc, behind)?;
            Ok(Some(Node::Cut {
                over: *over,
                shares,
            }))
        }
        Some((Line::Bound { over, .. }, behind)) => {
            let shares = first_shares(alloc, behind)?;
            Ok(Some(Node::Bound {
                over: *over,
                shares,
            }))
        }
        Some((Line::Empty { over, .. }, behind)) => {
            let shares = first_shares(alloc, behind)?;
            Ok(Some(Node::Empty {
                over: *over,
                shares,
            }))
        }
        _ => Ok(None),
    }
}
