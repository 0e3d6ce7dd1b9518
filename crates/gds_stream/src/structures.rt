//! The library of a stream, its structures and their elements in turn.
ghost use Rattle.std.specs.Prelude.{◌≡◌, [], ◌∷◌, ◌++◌, List, Some, None, IfOk, OnOk, option_to_list};
ghost use Rattle.rt_base.specs.Text.{IsText};
ghost use Rattle.gds_records.specs.Records.{Item};
ghost use Rattle.gds_grammar.specs.Grammar.{many};
ghost use Rattle.gds_grammar.specs.Format as rules;
ghost use Rattle.gds_grammar.specs.Conditions.{trim};
ghost use Rattle.gds_stream.specs.Contents.{library_of};
ghost use Rattle.gds_stream.specs.Gives.{Gives, AddsElement, AddElements, AddsStructure, AddStructures};
ghost use Rattle.gds_stream.specs.Rests as rests;

use crate::data::{text_of, units_of};
use crate::error::StreamError;
use crate::library::{Element, Library, Structure};
use crate::reader::Reader;
use gds_records::{BGNLIB, BGNSTR, ENDEL, ENDLIB, ENDSTR, HEADER, LIBNAME, STARTS, STRNAME, UNITS};
use rt_base::{List, OutOfMemory};

impl<'a> Reader<'a> {
    /// The whole stream, but for the zeros behind it.
    #[tactic(auto, unfolding(gds_grammar::specs::Format::stream), using(crate::proofs::Giving::steps))]
    pub fn library(&mut self) -> Result<Library, StreamError>
        ensures { Gives rules.stream (λ items library. library ≡ library_of items) self.old self.new result }
    {
        self.take(HEADER)?;
        self.take(BGNLIB)?;
        self.skip()?;
        let name = self.take(LIBNAME)?;
        self.skip()?;
        self.contents(name)
    }

    // The library of this name, from its units on.
    #[tactic(auto, using(crate::proofs::Giving::steps))]
    fn contents(&mut self, name: &[u8]) -> Result<Library, StreamError>
        requires { IsText (trim name.now) }
        ensures { Gives rests.contents (rests.GivesContents name.now) self.old self.new result }
    {
        let units = self.take(UNITS)?;
        let structures = self.structures()?;
        self.take(ENDLIB)?;
        Ok(Library {
            name: text_of(self.alloc(), name)?,
            units: units_of(units),
            structures,
        })
    }

    /// Structures.
    #[tactic(auto, using(crate::proofs::Looping::loop_stops))]
    pub fn structures(&mut self) -> Result<List<Structure>, StreamError>
        ensures { Gives (many rules.structure) AddStructures self.old self.new result }
    {
        let _rest = self.rest();
        let mut structures = List::new(self.alloc());
        while self.sees(&[BGNSTR])? {
            let structure = self.structure()?;
            structures.push(structure)?;
        }
        Ok(structures)
    }

    /// A structure: its name and its elements.
    #[tactic(auto, unfolding(gds_grammar::specs::Format::structure), using(crate::proofs::Giving::steps))]
    pub fn structure(&mut self) -> Result<Structure, StreamError>
        ensures { Gives rules.structure AddsStructure self.old self.new result }
    {
        self.take(BGNSTR)?;
        let name = self.take(STRNAME)?;
        self.skip()?;
        let elements = self.elements()?;
        self.take(ENDSTR)?;
        Ok(Structure {
            name: text_of(self.alloc(), name)?,
            elements,
        })
    }

    /// Elements.
    #[tactic(auto, using(crate::proofs::Looping::loop_stops))]
    pub fn elements(&mut self) -> Result<List<Element>, StreamError>
        ensures { Gives (many rules.element) AddElements self.old self.new result }
    {
        let _rest = self.rest();
        let mut elements = List::new(self.alloc());
        while self.sees(&STARTS)? {
            let element = self.element()?;
            keep(&mut elements, element)?;
        }
        Ok(elements)
    }

    /// One of the seven elements, its properties, and its end.
    #[tactic(auto, unfolding(gds_grammar::specs::Format::element), using(crate::proofs::Giving::steps))]
    pub fn element(&mut self) -> Result<Option<Element>, StreamError>
        ensures { Gives rules.element AddsElement self.old self.new result }
    {
        let element = self.shape()?;
        self.properties()?;
        self.take(ENDEL)?;
        Ok(element)
    }
}

// Appends an element, if there is one.
fn keep(elements: &mut List<Element>, element: Option<Element>) -> Result<(), OutOfMemory>
    ensures { OnOk result (elements.new ≡ elements.old ++ option_to_list element) }
{
    if let Some(element) = element {
        elements.push(element)?;
    }
    Ok(())
}
