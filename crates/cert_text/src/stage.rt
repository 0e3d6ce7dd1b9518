//! Where a reader of certificates stands, and what a line does there.
ghost use Rattle.std.specs.Prelude.{◌≡◌, ◌^◌, ◌<◌};
ghost use Rattle.cert_lines.specs.Limits.{IsWithin};
ghost use Rattle.cert_text.specs.Stages.{first_of, IsNext, trees_in};

use cert_lines::Line;

/// Where a reader of the lines of a certificate stands.
#[derive(Clone, Copy, Drop)]
pub enum Stage {
    /// Before the title.
    Title,
    /// Before the claim.
    Claim,
    /// Before the axis, with strips to follow, or with columns.
    Axis {
        /// Whether columns follow.
        columns: bool,
    },
    /// Among strips.
    Strips {
        /// The number of the next.
        number: u64,
    },
    /// Among columns.
    Columns {
        /// The number of the next strip.
        number: u64,
    },
    /// Before the heading of the one tree.
    Across,
    /// Among the lines of a tree, or behind it.
    Tree {
        /// How many shares of the node before follow.
        shares: u64,
        /// How many trees follow, one in another.
        trees: u64,
        /// Whether it is the last tree.
        last: bool,
    },
    /// Behind the end.
    Over,
}

/// Where the reader stands behind the line, or None where the line can't stand here.
pub fn next(stage: &Stage, line: &Line) -> Option<Stage>
    requires within { IsWithin line.now }
    requires few { trees_in stage.now < 2 ^ 63 }
    ensures { IsNext stage.now line.now result }
{
    match *stage {
        Stage::Title => behind_title(line),
        Stage::Claim => behind_claim(line),
        Stage::Axis { columns } => behind_axis(columns, line),
        Stage::Strips { number } => behind_strip(number, line),
        Stage::Columns { number } => behind_column(number, line),
        Stage::Across => behind_across(line),
        Stage::Tree {
            shares,
            trees,
            last,
        } => {
            if shares > 0 {
                behind_share(shares, trees, last, line)
            } else if trees > 0 {
                behind_node(trees, last, line)
            } else {
                behind_tree(last, line)
            }
        }
        Stage::Over => None,
    }
}

// Behind the title.
fn behind_title(line: &Line) -> Option<Stage>
    ensures { IsNext Stage.Title line.now result }
{
    match *line {
        Line::Title => Some(Stage::Claim),
        _ => None,
    }
}

// Behind the line of the claim.
fn behind_claim(line: &Line) -> Option<Stage>
    ensures { IsNext Stage.Claim line.now result }
{
    match *line {
        Line::Done { .. } => Some(Stage::Axis { columns: false }),
        Line::NoneAcross => Some(Stage::Across),
        Line::NoneUpwards { .. } => Some(Stage::Axis { columns: true }),
        _ => None,
    }
}

// Behind the line of the axis.
fn behind_axis(columns: bool, line: &Line) -> Option<Stage>
    ensures { IsNext (Stage.Axis columns) line.now result }
{
    match *line {
        Line::NoAxis => Some(first_of(columns)),
        Line::Axis { .. } => Some(first_of(columns)),
        _ => None,
    }
}

// Before the first strip, or before its columns.
fn first_of(columns: bool) -> Stage
    ensures { result ≡ first_of columns }
{
    if columns {
        Stage::Columns { number: 0 }
    } else {
        Stage::Strips { number: 0 }
    }
}

// Behind a strip, or behind all of them.
fn behind_strip(next: u64, line: &Line) -> Option<Stage>
    requires { IsWithin line.now }
    ensures { IsNext (Stage.Strips next) line.now result }
{
    match *line {
        Line::Strip { number, .. } if number == i128::from(next) => {
            Some(Stage::Strips { number: next + 1 })
        }
        Line::Across => Some(Stage::Tree {
            shares: 0,
            trees: 1,
            last: false,
        }),
        _ => None,
    }
}

// Behind the columns of a strip, or behind all of them.
fn behind_column(next: u64, line: &Line) -> Option<Stage>
    requires { IsWithin line.now }
    ensures { IsNext (Stage.Columns next) line.now result }
{
    match *line {
        Line::Column { number, .. } if number == i128::from(next) => {
            Some(Stage::Columns { number: next + 1 })
        }
        Line::Across => Some(Stage::Tree {
            shares: 0,
            trees: 1,
            last: false,
        }),
        _ => None,
    }
}

// Behind the heading of the one tree.
fn behind_across(line: &Line) -> Option<Stage>
    ensures { IsNext Stage.Across line.now result }
{
    match *line {
        Line::Across => Some(Stage::Tree {
            shares: 0,
            trees: 1,
            last: true,
        }),
        _ => None,
    }
}

// Behind a share.
fn behind_share(shares: u64, trees: u64, last: bool, line: &Line) -> Option<Stage>
    requires { 0 < shares }
    ensures { IsNext (Stage.Tree shares trees last) line.now result }
{
    match *line {
        Line::Share { .. } => Some(Stage::Tree {
            shares: shares - 1,
            trees,
            last,
        }),
        _ => None,
    }
}

// Behind the line of a node.
fn behind_node(trees: u64, last: bool, line: &Line) -> Option<Stage>
    requires within { IsWithin line.now }
    requires some { 0 < trees }
    requires few { trees < 2 ^ 63 }
    ensures { IsNext (Stage.Tree 0 trees last) line.now result }
{
    match *line {
        Line::Branch { .. } => Some(Stage::Tree {
            shares: 0,
            trees: trees + 1,
            last,
        }),
        Line::Cut { shares, .. } => Some(Stage::Tree {
            shares: shares as u64,
            trees,
            last,
        }),
        Line::Bound { shares, .. } => Some(Stage::Tree {
            shares: shares as u64,
            trees: trees - 1,
            last,
        }),
        Line::Empty { shares, .. } => Some(Stage::Tree {
            shares: shares as u64,
            trees: trees - 1,
            last,
        }),
        _ => None,
    }
}

// Behind a whole tree.
fn behind_tree(last: bool, line: &Line) -> Option<Stage>
    ensures { IsNext (Stage.Tree 0 0 last) line.now result }
{
    match *line {
        Line::End if last => Some(Stage::Over),
        Line::Upwards if !last => Some(Stage::Tree {
            shares: 0,
            trees: 1,
            last: true,
        }),
        _ => None,
    }
}
