//! The names of rows.
/// The name of a row of a template, with its numbers in order: of strips, where none else is told. The variants stand in the order in which a
/// template lists its names. A name is in one template, in both, or for the numbers that it has in none. (This project's own.)
#[derive(Clone, Copy, Drop)]
pub enum Name {
    /// A strip begins at 0 or after it.
    Lo(u32),
    /// A strip ends within the extent.
    Hi(u32),
    /// The extent is at least 0.
    Zero,
    /// The extent is at most 20,000,000 steps.
    Top,
    /// A strip is at least as wide as its mask's width.
    Wide(u32),
    /// A strip has a row at least.
    Tall(u32),
    /// A cut or a channel is no longer than its size.
    Size(u32),
    /// Of two strips that touch, the second begins where the first does or after it.
    Ll(u32, u32),
    /// Of two strips that touch, the second ends where the first does or after it.
    Rr(u32, u32),
    /// Two strips that touch share the mask's width.
    Share(u32, u32),
    /// The second strip begins no lower than the first ends.
    On(u32, u32),
    /// The first strip ends no lower than the second begins.
    Under(u32, u32),
    /// The second strip keeps its distance beyond the first.
    Gap(u32, u32),
    /// From the lowest strip of a chain to its highest it is at least as high as the mask's width.
    Run(u32, u32),
    /// By the pair rule of the first number, the last strip keeps its distance beyond the other.
    Off(u32, u32, u32),
    /// By the enclosure of the first number, the last strip reaches beyond the other at its left.
    Inl(u32, u32, u32),
    /// The same at its right.
    Inr(u32, u32, u32),
    /// The same at its bottom.
    Inb(u32, u32, u32),
    /// The same at its top.
    Int(u32, u32, u32),
    /// A host of a channel reaches beyond it at its left.
    Chl(u32, u32),
    /// The same at its right.
    Chr(u32, u32),
    /// The same at its bottom.
    Chb(u32, u32),
    /// The same at its top.
    Cht(u32, u32),
    /// A channel reaches as far left as the strip that crosses it.
    Eql(u32, u32),
    /// The same to the right.
    Eqr(u32, u32),
    /// The same down.
    Eqb(u32, u32),
    /// The same up.
    Eqt(u32, u32),
    /// The two strips of a mirror pair lie no nearer than their axis tells.
    MirLo(u32, u32),
    /// The two strips of a mirror pair lie no farther than their axis tells.
    MirHi(u32, u32),
    /// The second strip of a mirror pair begins no lower than the first.
    SameB(u32, u32),
    /// The second strip of a mirror pair ends no lower than the first.
    SameT(u32, u32),
}
