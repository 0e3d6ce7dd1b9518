//! How a path ends, by its type, and so which types are taken.
ghost use Rattle.std.specs.Prelude.{◌≡◌, Some};
ghost use Rattle.gds_slabs.specs.declared.path.PathEnd.{PathEnd as End};
ghost use Rattle.gds_flat.specs.Elements.{end_of as end_in};

use gds_slabs::PathEnd;

// How a path of the type ends, if the type is taken.
pub(crate) fn end_of(pathtype: &i16) -> Option<PathEnd>
    ensures { result ≡ end_in pathtype.now }
{
    match *pathtype {
        0 => Some(PathEnd::Flush),
        2 => Some(PathEnd::Square),
        _ => None,
    }
}

// How a path of a type that is taken ends.
pub(crate) fn taken_end(pathtype: &i16) -> PathEnd
    requires { (end : End) × (end_in pathtype.now ≡ Some end) }
    ensures { end_in pathtype.now ≡ Some result }
{
    match end_of(pathtype) {
        Some(end) => end,
        None => unreachable!(),
    }
}
