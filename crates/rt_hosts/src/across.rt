//! The columns of one slab: which bars of strips have a column in common with those of rectangles.
ghost use Rattle.std.specs.Prelude.{◌≡◌, ◌<◌, length};
ghost use Rattle.rt_sweep.specs.Rows.{AreAcross};
ghost use Rattle.rt_hosts.specs.Across.{IsOfStrip, IsFarthest, IsNearest, IsNoted, AreLookedAt, IsEarlier, IsLater, AreAnyTwo};

use rt_sweep::Bar;

/// Notes a host for each bar of a rectangle that has a column in common with the bar of a strip. As many rectangles are there as hosts; bar
/// with tag t is that of rectangle t, and those with greater tags are of strips, by their numbers behind that count. All stand in order of their left
/// ends. It takes no memory.
pub(crate) fn look_across(active: &[Bar], hosts: &mut [Option<u32>])
    requires { AreAcross active.now }
    ensures { AreLookedAt active.now (length hosts.old) AreAnyTwo hosts.old hosts.new }
{
    look_back(active, hosts);
    look_ahead(active, hosts);
}

// Looks from each bar for a strip's bar before it.
fn look_back(active: &[Bar], hosts: &mut [Option<u32>])
    requires { AreAcross active.now }
    ensures { AreLookedAt active.now (length hosts.old) IsEarlier hosts.old hosts.new }
{
    let mut held = None;
    for bar in active {
        note(bar, held, hosts);
        held = farthest(bar, held, hosts.len());
    }
}

// Looks from each bar for a strip's bar behind it.
fn look_ahead(active: &[Bar], hosts: &mut [Option<u32>])
    requires { AreAcross active.now }
    ensures { AreLookedAt active.now (length hosts.old) IsLater hosts.old hosts.new }
{
    let mut held = None;
    let mut place = active.len();
    while place > 0 {
        place -= 1;
        let bar = &active[place];
        note(bar, held, hosts);
        held = nearest(bar, held, hosts.len());
    }
}

// The bar, if it is that of a strip and ends to the right of the one that is held; else that one.
fn farthest(bar: &Bar, held: Option<Bar>, count: usize) -> Option<Bar>
    ensures { IsFarthest bar.now held count result }
{
    if (bar.tag as usize) < count {
        return held;
    }
    match held {
        Some(other) => {
            if bar.at.x2 < other.at.x2 {
                held
            } else {
                Some(*bar)
            }
        }
        None => Some(*bar),
    }
}

// The bar, if it is that of a strip; else the one that is held.
fn nearest(bar: &Bar, held: Option<Bar>, count: usize) -> Option<Bar>
    ensures { IsNearest bar.now held count result }
{
    if (bar.tag as usize) < count {
        held
    } else {
        Some(*bar)
    }
}

// Notes the strip whose bar is held for the bar, if that is one of a rectangle and the two have a common column.
fn note(bar: &Bar, held: Option<Bar>, hosts: &mut [Option<u32>])
    requires { IsOfStrip (length hosts.old) held }
    ensures { IsNoted bar.now held hosts.old hosts.new }
{
    let Some(strip) = held else {
        return;
    };
    let number = bar.tag as usize;
    if number >= hosts.len() || strip.at.x2 <= bar.at.x1 || bar.at.x2 <= strip.at.x1 {
        return;
    }
    hosts[number] = Some((strip.tag as usize - hosts.len()) as u32);
}
