//! A rule table as a value, and what may be wrong with the document of one.
use rt_base::{List, Text};

/// What the shapes of a mask are for. (This project's own.)
#[derive(Clone, Copy, Debug, PartialEq, Eq, Drop)]
pub enum Role {
    /// Wires that conduct.
    Metal,
    /// The gates of transistors, which conduct too. One mask at most.
    Gate,
    /// The bodies of transistors and taps, which conduct where no gate lies over them. One mask at most.
    Active,
    /// Cuts that join an upper mask with a lower one.
    Cut,
    /// Shapes around actives, which tell their kinds. They don't conduct.
    Background,
}

/// A mask: a layer of the stream with its rules. Its lengths are database units in a source table and steps in a
/// target table. (This project's own.)
#[derive(Drop)]
pub struct Mask {
    /// Its name: 1 to 32 bytes of a to z, 0 to 9 and `_`, and not `channel`.
    pub name: Text,
    /// What its shapes are for.
    pub role: Role,
    /// The layer of its shapes in a stream, 0 to 32,767. (GDSII Release 6: LAYER.)
    pub layer: i16,
    /// The data type of its shapes in a stream, 0 to 32,767. (GDSII Release 6: DATATYPE.)
    pub datatype: i16,
    /// The layer and the text type of its labels in a stream, 0 to 32,767, where a metal or a gate has labels.
    /// (GDSII Release 6: LAYER, TEXTTYPE.)
    pub note: Option<(i16, i16)>,
    /// The least width of a shape, or the side of a cut's squares: 1 to 1,000,000.
    pub width: i64,
    /// The least space between two shapes, 1 to 1,000,000.
    pub space: i64,
    /// Of a cut, the number of the metal above it. 0 for other masks.
    pub upper: u32,
    /// Of a cut, the numbers of the masks that it may stand on: different ones, each a metal, the gate or the active.
    /// None for other masks.
    pub lowers: List<u32>,
}

/// A rule of enclosure: each piece of a cut, grown by a number on all sides, lies in a mask. Of a lower mask it is
/// said of the pieces that stand on it. (This project's own.)
#[derive(Drop)]
pub struct Enclose {
    /// The number of the cut.
    pub cut: u32,
    /// The number of the mask around it: its upper or one of its lowers.
    pub mask: u32,
    /// How far the mask reaches at least past the cut: 0 to 1,000,000.
    pub number: i64,
}

/// A rule of distance between two masks. (This project's own.)
#[derive(Drop)]
pub struct Apart {
    /// The number of the first mask.
    pub a: u32,
    /// Where `a` is a cut and `b` one of its lowers: another lower of it, and the rule is said of the pieces of the
    /// cut that stand on that one.
    pub on: Option<u32>,
    /// The number of the second mask.
    pub b: u32,
    /// The least gap on some axis: 1 to 1,000,000.
    pub number: i64,
}

/// A background of a kind with a number.
#[derive(Drop)]
pub struct Near {
    /// The number of the background.
    pub mask: u32,
    /// How far it reaches past the active, or how far it stays away, at least. 0 or 1 to 1,000,000.
    pub number: i64,
}

/// A kind of actives, told by the backgrounds around a piece. (This project's own.)
#[derive(Drop)]
pub struct Kind {
    /// Its name: 1 to 32 bytes of a to z, 0 to 9 and `_`.
    pub name: Text,
    /// Whether a piece of this kind may have channels.
    pub device: bool,
    /// The backgrounds in which a piece of this kind lies, each once. Numbers from 0.
    pub inside: List<Near>,
    /// The backgrounds from which it stays away, each once. Numbers from 1.
    pub outside: List<Near>,
}

/// The rules of channels, each number 1 to 1,000,000. (This project's own.)
#[derive(Clone, Copy, Debug, PartialEq, Eq, Drop)]
pub struct Gates {
    /// How far a gate reaches at least past a channel, along the gate.
    pub cap: i64,
    /// How far the active reaches at least past a channel, across the gate.
    pub ext: i64,
    /// The least gap on one line between gate alone and active alone.
    pub cross: i64,
}

/// A rule table. A source table counts in database units of the source stream, and a target table in steps:
/// one step is `grid` database units of the target stream. (This project's own.)
#[derive(Drop)]
pub struct Tech {
    /// How many database units one step is, 1 to 100. A source table's isn't used.
    pub grid: i64,
    /// The two reals of a stream's UNITS record: the database unit in user units, and in metres. (GDSII Release 6.)
    pub units: [u8; 16],
    /// The masks, 1 to 64, by their numbers from 0.
    pub masks: List<Mask>,
    /// The enclosures: one for each cut and its upper, and one for each cut and each of its lowers.
    pub encloses: List<Enclose>,
    /// The rules of channels, there where the table has an active.
    pub gates: Option<Gates>,
    /// The distances between masks, in the table's order.
    pub aparts: List<Apart>,
    /// The kinds of actives, 1 to 64 where the table has an active.
    pub kinds: List<Kind>,
    /// The layer pairs of a stream that are passed over. -1 for the second number is every number.
    pub ignored: List<(i16, i16)>,
    /// Whether all layer pairs that no mask has are passed over.
    pub drop_unlisted: bool,
}

/// Which of the two tables of a retargeting a table is.
#[derive(Clone, Copy, Debug, PartialEq, Eq, Drop)]
pub enum Which {
    /// That of the layout as it is. Its numbers are database units of the source.
    Source,
    /// That of the layout to be made. Its numbers are steps.
    Target,
}

/// What is wrong at a key of a table or of a sizes file, in the order in which one key is tested. (This project's
/// own.)
#[derive(Clone, Copy, Debug, PartialEq, Eq, Drop)]
pub enum TableCause {
    /// The key isn't there.
    Missing,
    /// The value is of another type.
    Form,
    /// A number, a word or a count of entries outside what is allowed.
    Range,
    /// It stands twice.
    Duplicate,
    /// There is no mask and no kind of this name.
    Name,
    /// The mask has a role that isn't allowed here.
    Role,
    /// Two entries that forbid each other.
    Clash,
    /// A key that isn't allowed here.
    Unknown,
}
