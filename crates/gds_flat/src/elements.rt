//! The tests of elements, in the order in which structures were reached and their elements stand.
ghost use Rattle.std.specs.Prelude.{All, OnOk, IfErr};
ghost use Rattle.gds_flat.specs.Elements.{IsTested, Fine, FaultOf, FirstFault};
ghost use Rattle.gds_flat.specs.Refused.{elements_along};
ghost use Rattle.gds_flat.specs.Walking.{names_at};
ghost use Rattle.gds_flat.specs.Depths.{IsTree};

use crate::error::ElementFault;
use crate::masks::{is_passed_over, mask_of, pair_of};
use crate::names::Names;
use crate::odds::odd_of;
use crate::steps::{offset_of, step_fails};
use crate::walk::Walk;
use gds_stream::Element;
use rt_tech::Tech;

// Tests the elements of the structures in the order in which they were reached.
pub(crate) fn test_all(names: &Names, walk: &Walk, tech: &Tech) -> Result<(), ElementFault>
    requires { IsTree names.now.structures.now names.now.top.now walk.now }
    ensures ok { OnOk result (All (Fine tech.now) (elements_along names.now.structures.now (names_at names.now.structures.now walk.now.order.items))) }
    ensures err { IfErr result (FirstFault tech.now (elements_along names.now.structures.now (names_at names.now.structures.now walk.now.order.items))) }
{
    for structure in &walk.order {
        test_elements(tech, names.structures[*structure].elements.as_slice())?;
    }
    Ok(())
}

// Tests elements in their order.
fn test_elements(tech: &Tech, elements: &[Element]) -> Result<(), ElementFault>
    ensures ok { OnOk result (All (Fine tech.now) elements.now) }
    ensures err { IfErr result (FirstFault tech.now elements.now) }
{
    for element in elements {
        test(tech, element)?;
    }
    Ok(())
}

// Tests an element: its layer, then what is odd in it, then its steps. What the table passes over isn't tested.
fn test(tech: &Tech, element: &Element) -> Result<(), ElementFault>
    ensures ok { OnOk result (Fine tech.now element.now) }
    ensures err { IfErr result (FaultOf tech.now element.now) }
{
    let Some(pair) = pair_of(element) else {
        return test_tested(tech, element);
    };
    if mask_of(tech, element).is_some() {
        return test_tested(tech, element);
    }
    if is_passed_over(tech, &pair) {
        return Ok(());
    }
    Err(ElementFault::Unmapped {
        layer: pair.0,
        number: pair.1,
    })
}

// Tests an element that isn't passed over: what is odd in it, and its steps.
fn test_tested(tech: &Tech, element: &Element) -> Result<(), ElementFault>
    requires { IsTested tech.now element.now }
    ensures ok { OnOk result (Fine tech.now element.now) }
    ensures err { IfErr result (FaultOf tech.now element.now) }
{
    if let Some(odd) = odd_of(element) {
        return Err(ElementFault::Oddity {
            offset: offset_of(element),
            odd,
        });
    }
    if step_fails(element) {
        return Err(ElementFault::Steps {
            offset: offset_of(element),
        });
    }
    Ok(())
}
