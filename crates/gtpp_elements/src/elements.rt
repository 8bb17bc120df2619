ghost use Rattle.std.specs.Prelude.{◌≡◌, ◌≢◌, ◌↔◌, List, All, IsNone, option_map};
ghost use Rattle.std.specs.Result.{result_err};
ghost use Rattle.gtpp_elements.specs.Elements.{Element, SpellElements, first_value};
ghost use Rattle.gtpp_elements.specs.Reading.{IsFirstFault, elements_in};
ghost use Rattle.gtpp_elements.specs.declared.fault.ElementFault.{ElementFault};

use crate::element::element_at;
use crate::fault::ElementFault;
use std::marker::Model;

/// The elements of a body, in their order. They lend their octets from it.
#[derive(Drop)]
pub struct Elements<'a> {
    body: &'a [u8],
}

impl<'a> Model for Elements<'a> {
    ghost use Rattle.std.specs.Prelude.{◌≡◌, List, [], true, is_ok};
    ghost use Rattle.std.specs.Result.{result_unwrap_or};
    ghost use Rattle.gtpp_elements.specs.Elements.{Element};
    ghost use Rattle.gtpp_elements.specs.Reading.{elements_in};

    ghost Value = { List Element };

    ghost view = { λ e. result_unwrap_or (elements_in e.body.now) [] };

    ghost invariant = { λ e. is_ok (elements_in e.body.now) ≡ true };
}

/// Goes over the elements that a body consists of, up to the first fault.
fn check(body: &[u8]) -> Result<(), ElementFault>
    ensures { result_err result ≡ result_err (elements_in body.now) }
{
    let mut rest = body;
    while !rest.is_empty() {
        let found = element_at(body.len() - rest.len(), rest)?;
        rest = found.rest;
    }
    Ok(())
}

/// Reads the elements that a body consists of.
///
/// The first element that is faulty decides. Elements of an unknown type are read as any other
/// where they state their length.
pub fn read(body: &[u8]) -> Result<Elements<'_>, ElementFault>
    ensures reading { result ≡ elements_in body.now }
    ensures elements { (elements : List Element) → (result ≡ Ok elements) ↔ SpellElements elements body.now }
    ensures fault { (fault : ElementFault) → (result ≡ Err fault) ↔ IsFirstFault fault body.now }
{
    match check(body) {
        Ok(()) => Ok(Elements { body }),
        Err(fault) => Err(fault),
    }
}

impl<'a> Elements<'a> {
    /// The value of the first element of this type.
    pub fn first(&self, kind: u8) -> Option<&'a [u8]>
        ensures value { option_map (λ value. value.now) result ≡ first_value kind self.now }
        ensures none { IsNone result ↔ All (λ element. element.kind ≢ kind) self.now }
    {
        let mut rest = self.body;
        while let Ok(found) = element_at(self.body.len() - rest.len(), rest) {
            if found.kind == kind {
                return Some(found.value);
            }
            rest = found.rest;
        }
        None
    }
}
