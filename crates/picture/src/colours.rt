//! The colours of the masks.

// The colours, as SVG spells them. They are told apart on white also where they lie over one another.
const PALETTE: [&str; 10] = [
    "#1f77b4", "#d62728", "#2ca02c", "#ff7f0e", "#9467bd", "#8c564b", "#17becf", "#e377c2",
    "#7f7f7f", "#bcbd22",
];

/// The colour of a mask by its number in the table: one of its own, as long as there are colours, and then they repeat. So a
/// mask has the same colour in the pictures of two tables of one form.
pub fn colour_of(mask: usize) -> &'static str {
    PALETTE[mask % PALETTE.len()]
}
