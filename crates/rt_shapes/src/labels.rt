//! Labels that no rectangle of their mask touches.
ghost use Rattle.std.specs.Prelude.{◌≡◌, length, map, All, IfErr, OnOk, MatchBool};
ghost use Rattle.rt_base.specs.Plane.{area};
ghost use Rattle.rt_layout.specs.Covering.{MaskCovers};
ghost use Rattle.rt_tech.specs.Tech.{mask_count};
ghost use Rattle.rt_strips.specs.Channels.{IsStripsOf};
ghost use Rattle.rt_strips.specs.Placed.{placed};
ghost use Rattle.rt_strips.specs.StripsOf.{AreStrips};
ghost use Rattle.rt_view.specs.Shapes.{IsWiring, LabelsTouch, Touches, square_at};
ghost use Rattle.rt_shapes.specs.Cutting.{cells_by};
ghost use Rattle.rt_shapes.specs.Sound.{IsStrayRefusal};
ghost use Rattle.rt_shapes.specs.Touching.{IsTouching, IsPlain, ArePlain};

use rt_base::Rect;
use rt_layout::{Label, Layout};
use rt_strips::{Strip, Strips};
use rt_tech::Tech;
use rt_view::{NetError, Shape};

/// That each label of the layout lies in a closed rectangle of its mask, or `StrayLabel` with the square whose lower left corner is the point of the first
/// label that doesn't. Each label is tested against the strips one by one, so it is meant for the few strips of a cell that is moved. It takes no memory.
/// (This project's own.)
pub fn check_labels(layout: &Layout, strips: &Strips, tech: &Tech) -> Result<(), NetError>
    requires wiring { All IsWiring tech.now.masks }
    requires masks { length layout.now.masks ≡ mask_count tech.now }
    requires strips { IsStripsOf layout.now tech.now strips.now }
    requires points { ArePlain layout.now.labels }
    ensures touching { OnOk result (LabelsTouch (MaskCovers layout.now) layout.now.labels) }
    ensures refused { IfErr result (IsStrayRefusal (MaskCovers layout.now) layout.now.labels) }
{
    check_touched(strips.list.as_slice(), layout.labels.as_slice())
}

// The same by the strips.
fn check_touched(strips: &[Strip], labels: &[Label]) -> Result<(), NetError>
    requires strips { AreStrips (map placed strips.now) }
    requires points { ArePlain labels.now }
    ensures touching { OnOk result (LabelsTouch (cells_by (map placed strips.now)) labels.now) }
    ensures refused { IfErr result (IsStrayRefusal (cells_by (map placed strips.now)) labels.now) }
{
    for label in labels {
        if !is_touched(strips, label) {
            return Err(NetError::SourceShape {
                shape: Shape::StrayLabel,
                rect: square_of(label),
            });
        }
    }
    Ok(())
}

// Whether a strip of its mask touches the label.
fn is_touched(strips: &[Strip], label: &Label) -> bool
    requires { AreStrips (map placed strips.now) }
    ensures { MatchBool result
        (Touches (cells_by (map placed strips.now) label.now.mask) label.now.at.0 label.now.at.1)
        (¬ Touches (cells_by (map placed strips.now) label.now.mask) label.now.at.0 label.now.at.1) }
{
    for strip in strips {
        if touches(strip, label) {
            return true;
        }
    }
    false
}

// Whether the strip is of the label's mask and touches it.
fn touches(strip: &Strip, label: &Label) -> bool
    ensures { MatchBool result (IsTouching (placed strip.now) label.now) (¬ IsTouching (placed strip.now) label.now) }
{
    if strip.mask != label.mask {
        return false;
    }
    if label.at.0 < strip.at.x1 || strip.at.x2 < label.at.0 {
        return false;
    }
    if label.at.1 < strip.at.y1 || strip.at.y2 < label.at.1 {
        return false;
    }
    true
}

// The square of side 1 whose lower left corner is the label's point.
fn square_of(label: &Label) -> Rect
    requires { IsPlain label.now }
    ensures { area result ≡ square_at label.now.at }
{
    Rect {
        x1: label.at.0,
        y1: label.at.1,
        x2: label.at.0 + 1,
        y2: label.at.1 + 1,
    }
}
