//! The rows that a share names: their words, their numbers, and which row has a word.
ghost use Rattle.std.specs.Prelude.{◌≡◌, ◌≤◌, take};
ghost use Rattle.std.specs.List.{find};
ghost use Rattle.std.specs.Str.{bytes_eq};
ghost use Rattle.cert_lines.specs.Lines.{row_word, row_numbers, all_rows};

use rt_rows::{Name, Of};

// How many kinds of rows there are.
const KINDS: usize = 32;

/// The word of a row.
pub fn row_word(of: &Of) -> &'static str
    ensures { result.now ≡ row_word of.now }
{
    match *of {
        Of::Up(_) => "up",
        Of::Template(name) => match name {
            Name::Lo(_) => "lo",
            Name::Hi(_) => "hi",
            Name::Zero => "zero",
            Name::Top => "top",
            Name::Wide(_) => "wide",
            Name::Tall(_) => "tall",
            Name::Size(_) => "size",
            Name::Ll(_, _) => "ll",
            Name::Rr(_, _) => "rr",
            Name::Share(_, _) => "share",
            Name::On(_, _) => "on",
            Name::Under(_, _) => "under",
            Name::Gap(_, _) => "gap",
            Name::Run(_, _) => "run",
            Name::Off(_, _, _) => "off",
            Name::Inl(_, _, _) => "inl",
            Name::Inr(_, _, _) => "inr",
            Name::Inb(_, _, _) => "inb",
            Name::Int(_, _, _) => "int",
            Name::Chl(_, _) => "chl",
            Name::Chr(_, _) => "chr",
            Name::Chb(_, _) => "chb",
            Name::Cht(_, _) => "cht",
            Name::Eql(_, _) => "eql",
            Name::Eqr(_, _) => "eqr",
            Name::Eqb(_, _) => "eqb",
            Name::Eqt(_, _) => "eqt",
            Name::MirLo(_, _) => "mirlo",
            Name::MirHi(_, _) => "mirhi",
            Name::SameB(_, _) => "sameb",
            Name::SameT(_, _) => "samet",
        },
    }
}

/// The numbers of a row, and how many of the three it has.
pub fn row_numbers(of: &Of) -> ([u32; 3], usize)
    ensures value { take result.1 result.0 ≡ row_numbers of.now }
    ensures few { result.1 ≤ 3 }
{
    match *of {
        Of::Up(i) => ([i, 0, 0], 1),
        Of::Template(name) => match name {
            Name::Lo(i) => ([i, 0, 0], 1),
            Name::Hi(i) => ([i, 0, 0], 1),
            Name::Zero => ([0, 0, 0], 0),
            Name::Top => ([0, 0, 0], 0),
            Name::Wide(i) => ([i, 0, 0], 1),
            Name::Tall(i) => ([i, 0, 0], 1),
            Name::Size(i) => ([i, 0, 0], 1),
            Name::Ll(i, j) => ([i, j, 0], 2),
            Name::Rr(i, j) => ([i, j, 0], 2),
            Name::Share(i, j) => ([i, j, 0], 2),
            Name::On(i, j) => ([i, j, 0], 2),
            Name::Under(i, j) => ([i, j, 0], 2),
            Name::Gap(i, j) => ([i, j, 0], 2),
            Name::Run(i, j) => ([i, j, 0], 2),
            Name::Off(i, j, k) => ([i, j, k], 3),
            Name::Inl(i, j, k) => ([i, j, k], 3),
            Name::Inr(i, j, k) => ([i, j, k], 3),
            Name::Inb(i, j, k) => ([i, j, k], 3),
            Name::Int(i, j, k) => ([i, j, k], 3),
            Name::Chl(i, j) => ([i, j, 0], 2),
            Name::Chr(i, j) => ([i, j, 0], 2),
            Name::Chb(i, j) => ([i, j, 0], 2),
            Name::Cht(i, j) => ([i, j, 0], 2),
            Name::Eql(i, j) => ([i, j, 0], 2),
            Name::Eqr(i, j) => ([i, j, 0], 2),
            Name::Eqb(i, j) => ([i, j, 0], 2),
            Name::Eqt(i, j) => ([i, j, 0], 2),
            Name::MirLo(i, j) => ([i, j, 0], 2),
            Name::MirHi(i, j) => ([i, j, 0], 2),
            Name::SameB(i, j) => ([i, j, 0], 2),
            Name::SameT(i, j) => ([i, j, 0], 2),
        },
    }
}

/// A row of each kind, with these numbers.
pub fn all_rows(i: u32, j: u32, k: u32) -> [Of; KINDS]
    ensures { result ≡ all_rows i j k }
{
    [
        Of::Up(i),
        Of::Template(Name::Lo(i)),
        Of::Template(Name::Hi(i)),
        Of::Template(Name::Zero),
        Of::Template(Name::Top),
        Of::Template(Name::Wide(i)),
        Of::Template(Name::Tall(i)),
        Of::Template(Name::Size(i)),
        Of::Template(Name::Ll(i, j)),
        Of::Template(Name::Rr(i, j)),
        Of::Template(Name::Share(i, j)),
        Of::Template(Name::On(i, j)),
        Of::Template(Name::Under(i, j)),
        Of::Template(Name::Gap(i, j)),
        Of::Template(Name::Run(i, j)),
        Of::Template(Name::Off(i, j, k)),
        Of::Template(Name::Inl(i, j, k)),
        Of::Template(Name::Inr(i, j, k)),
        Of::Template(Name::Inb(i, j, k)),
        Of::Template(Name::Int(i, j, k)),
        Of::Template(Name::Chl(i, j)),
        Of::Template(Name::Chr(i, j)),
        Of::Template(Name::Chb(i, j)),
        Of::Template(Name::Cht(i, j)),
        Of::Template(Name::Eql(i, j)),
        Of::Template(Name::Eqr(i, j)),
        Of::Template(Name::Eqb(i, j)),
        Of::Template(Name::Eqt(i, j)),
        Of::Template(Name::MirLo(i, j)),
        Of::Template(Name::MirHi(i, j)),
        Of::Template(Name::SameB(i, j)),
        Of::Template(Name::SameT(i, j)),
    ]
}
