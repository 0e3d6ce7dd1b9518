//! The seven elements, each as its records stand.
ghost use Rattle.std.specs.Prelude.{◌≡◌, ◌*◌, List, length, true, false, Some, None, IfOk, OnOk};
ghost use Rattle.rt_base.specs.Text.{IsText};
ghost use Rattle.gds_records.specs.Records.{Item, unit};
ghost use Rattle.gds_grammar.specs.Grammar as grammar;
ghost use Rattle.gds_grammar.specs.Format as rules;
ghost use Rattle.gds_grammar.specs.Conditions.{trim, is_in, is_number, number_count, form_of};
ghost use Rattle.gds_stream.specs.Contents.{place_in};
ghost use Rattle.gds_stream.specs.Gives.{Gives, IsShape, shape};
ghost use Rattle.gds_stream.specs.Rests as rests;
ghost use Rattle.gds_stream.specs.Rests.{HoldsArea};

use crate::data::{
    i16_of, i16_or_zero, i32_or_zero, point_of, points_of, real_or, text_of, three_points, u16_of,
};
use crate::error::StreamError;
use crate::library::{Element, Place};
use crate::reader::Reader;
use gds_records::{
    ANGLE, AREF, BGNEXTN, BOUNDARY, BOX, BOXTYPE, COLROW, DATATYPE, ELFLAGS, ENDEXTN, LAYER, MAG,
    NODE, NODETYPE, PATH, PATHTYPE, PLEX, PRESENTATION, SNAME, SREF, STRANS, STRING, TEXT,
    TEXTTYPE, WIDTH, XY,
};

// The real 1.
const ONE: [u8; 8] = [0x41, 0x10, 0, 0, 0, 0, 0, 0];

// The real 0.
const ZERO: [u8; 8] = [0, 0, 0, 0, 0, 0, 0, 0];

// What an element of a layer, a type on the layer and points holds.
#[derive(Clone, Copy)]
struct Area<'a> {
    layer: &'a [u8],
    kind: &'a [u8],
    xy: &'a [u8],
}

impl<'a> Reader<'a> {
    /// One of the seven elements. A node gives none.
    pub fn shape(&mut self) -> Result<Option<Element>, StreamError>
        ensures { Gives shape IsShape self.old self.new result }
    {
        match self.peek()?.code {
            BOUNDARY => self.boundary(),
            PATH => self.path(),
            SREF => self.sref(),
            AREF => self.aref(),
            TEXT => self.label(),
            NODE => self.node(),
            _ => self.box_shape(),
        }
    }

    // What may stand at the head of an element.
    #[tactic(auto, unfolding(gds_grammar::specs::Format::head), using(crate::proofs::Giving::steps))]
    fn head(&mut self) -> Result<(), StreamError>
        ensures gives { Gives rules.head (λ _ _. Unit {0}) self.old self.new result }
        ensures kind { OnOk result (self.new.kind ≡ self.old.kind) }
    {
        self.maybe(ELFLAGS)?;
        self.maybe(PLEX)?;
        Ok(())
    }

    // An element of a layer, a type on the layer and points, from its first record on.
    #[tactic(auto, using(crate::proofs::Giving::steps))]
    #[inline(always)]
    fn area(&mut self, start: u8, kind: u8) -> Result<Area<'a>, StreamError>
        requires apart { is_in rests.beside_kind kind ≡ false }
        requires number { is_number kind ≡ true }
        requires two { number_count kind * unit (form_of kind) ≡ 2 }
        ensures gives { Gives (rests.area start kind) (λ items a. HoldsArea self.old.at start kind items a.layer.now a.kind.now a.xy.now) self.old self.new result }
        ensures numbers { IfOk result (λ a. (length a.layer.now ≡ 2) × (length a.kind.now ≡ 2)) }
    {
        self.take(start)?;
        self.head()?;
        let layer = self.take(LAYER)?;
        let kind = self.take(kind)?;
        let xy = self.take(XY)?;
        Ok(Area { layer, kind, xy })
    }

    // A polygon.
    #[tactic(auto, unfolding(gds_grammar::specs::Format::boundary))]
    fn boundary(&mut self) -> Result<Option<Element>, StreamError>
        ensures { Gives rules.boundary IsShape self.old self.new result }
    {
        let offset = self.place();
        let area = self.area(BOUNDARY, DATATYPE)?;
        Ok(Some(Element::Boundary {
            offset,
            layer: i16_of(area.layer),
            datatype: i16_of(area.kind),
            points: points_of(self.alloc(), area.xy)?,
        }))
    }

    // A path.
    #[tactic(auto, unfolding(gds_grammar::specs::Format::path), using(crate::proofs::Giving::steps))]
    fn path(&mut self) -> Result<Option<Element>, StreamError>
        ensures { Gives rules.path IsShape self.old self.new result }
    {
        let offset = self.place();
        self.take(PATH)?;
        self.head()?;
        let layer = self.take(LAYER)?;
        let datatype = self.take(DATATYPE)?;
        self.path_line(offset, layer, datatype)
    }

    // A path from its type on, of this layer and data type.
    #[tactic(auto, using(crate::proofs::Giving::steps))]
    fn path_line(
        &mut self,
        offset: u64,
        layer: &[u8],
        datatype: &[u8],
    ) -> Result<Option<Element>, StreamError>
        requires layer { length layer.now ≡ 2 }
        requires datatype { length datatype.now ≡ 2 }
        ensures { Gives rests.path_line (rests.GivesLine offset layer.now datatype.now) self.old self.new result }
    {
        let pathtype = self.maybe(PATHTYPE)?;
        let width = self.maybe(WIDTH)?;
        let xy = self.path_points()?;
        Ok(Some(Element::Path {
            offset,
            layer: i16_of(layer),
            datatype: i16_of(datatype),
            pathtype: i16_or_zero(pathtype),
            width: i32_or_zero(width),
            points: points_of(self.alloc(), xy)?,
        }))
    }

    // A path's points, behind what it may say of how far its ends go on.
    #[tactic(auto, using(crate::proofs::Giving::steps))]
    fn path_points(&mut self) -> Result<&'a [u8], StreamError>
        ensures { Gives rests.path_points (λ items body. rests.HoldsPoints items body.now) self.old self.new result }
    {
        self.maybe(BGNEXTN)?;
        self.maybe(ENDEXTN)?;
        let xy = self.take(XY)?;
        Ok(xy)
    }

    // A structure that is placed once.
    #[tactic(auto, unfolding(gds_grammar::specs::Format::sref), using(crate::proofs::Giving::steps))]
    fn sref(&mut self) -> Result<Option<Element>, StreamError>
        ensures { Gives rules.sref IsShape self.old self.new result }
    {
        let offset = self.place();
        self.take(SREF)?;
        self.head()?;
        let name = self.take(SNAME)?;
        let place = self.placing()?;
        let xy = self.take(XY)?;
        Ok(Some(Element::Sref {
            offset,
            name: text_of(self.alloc(), name)?,
            place,
            at: point_of(xy),
        }))
    }

    // A structure that is placed in columns and rows.
    #[tactic(auto, unfolding(gds_grammar::specs::Format::aref), using(crate::proofs::Giving::steps))]
    fn aref(&mut self) -> Result<Option<Element>, StreamError>
        ensures { Gives rules.aref IsShape self.old self.new result }
    {
        let offset = self.place();
        self.take(AREF)?;
        self.head()?;
        let name = self.take(SNAME)?;
        self.array(offset, name)
    }

    // An array of the structure of this name, from how it is placed on.
    #[tactic(auto, using(crate::proofs::Giving::steps))]
    fn array(&mut self, offset: u64, name: &[u8]) -> Result<Option<Element>, StreamError>
        requires name { IsText (trim name.now) }
        requires kind { self.old.kind ≡ Some AREF }
        ensures { Gives rests.array (rests.GivesArray offset name.now) self.old self.new result }
    {
        let place = self.placing()?;
        let counts = self.take(COLROW)?;
        let xy = self.take(XY)?;
        Ok(Some(Element::Aref {
            offset,
            name: text_of(self.alloc(), name)?,
            place,
            columns: i16_of(&counts[..2]),
            rows: i16_of(&counts[2..]),
            points: three_points(xy),
        }))
    }

    // How a placement turns, if it says so.
    #[tactic(auto, using(crate::proofs::Giving::choices))]
    fn placing(&mut self) -> Result<Place, StreamError>
        ensures gives { Gives (grammar.maybe rules.turn) (λ items place. place_in items ≡ place) self.old self.new result }
        ensures kind { OnOk result (self.new.kind ≡ self.old.kind) }
    {
        if self.sees(&[STRANS])? {
            self.turn()
        } else {
            Ok(Place {
                flags: 0,
                mag: ONE,
                angle: ZERO,
            })
        }
    }

    // How a placement turns.
    #[tactic(auto, unfolding(gds_grammar::specs::Format::turn), using(crate::proofs::Giving::steps))]
    fn turn(&mut self) -> Result<Place, StreamError>
        ensures gives { Gives rules.turn (λ items place. place_in items ≡ place) self.old self.new result }
        ensures kind { OnOk result (self.new.kind ≡ self.old.kind) }
    {
        let flags = self.take(STRANS)?;
        let mag = self.maybe(MAG)?;
        let angle = self.maybe(ANGLE)?;
        Ok(Place {
            flags: u16_of(flags),
            mag: real_or(mag, ONE),
            angle: real_or(angle, ZERO),
        })
    }

    // A text.
    #[tactic(auto, unfolding(gds_grammar::specs::Format::label), using(crate::proofs::Giving::steps))]
    fn label(&mut self) -> Result<Option<Element>, StreamError>
        ensures { Gives rules.label IsShape self.old self.new result }
    {
        let offset = self.place();
        self.take(TEXT)?;
        self.head()?;
        let layer = self.take(LAYER)?;
        let texttype = self.take(TEXTTYPE)?;
        self.label_shown(offset, layer, texttype)
    }

    // A text of this layer and type, from how it is shown on.
    #[tactic(auto, using(crate::proofs::Giving::steps))]
    fn label_shown(
        &mut self,
        offset: u64,
        layer: &[u8],
        texttype: &[u8],
    ) -> Result<Option<Element>, StreamError>
        requires layer { length layer.now ≡ 2 }
        requires texttype { length texttype.now ≡ 2 }
        ensures { Gives rests.label_shown (rests.GivesText offset layer.now texttype.now) self.old self.new result }
    {
        self.maybe(PRESENTATION)?;
        self.maybe(PATHTYPE)?;
        self.maybe(WIDTH)?;
        self.label_text(offset, layer, texttype)
    }

    // A text of this layer and type, from how it is placed on.
    #[tactic(auto, using(crate::proofs::Giving::steps))]
    fn label_text(
        &mut self,
        offset: u64,
        layer: &[u8],
        texttype: &[u8],
    ) -> Result<Option<Element>, StreamError>
        requires layer { length layer.now ≡ 2 }
        requires texttype { length texttype.now ≡ 2 }
        ensures { Gives rests.label_text (rests.GivesText offset layer.now texttype.now) self.old self.new result }
    {
        self.placing()?;
        let xy = self.take(XY)?;
        let text = self.take(STRING)?;
        Ok(Some(Element::Label {
            offset,
            layer: i16_of(layer),
            texttype: i16_of(texttype),
            at: point_of(xy),
            text: text_of(self.alloc(), text)?,
        }))
    }

    // A node, which gives no element.
    #[tactic(auto, unfolding(gds_grammar::specs::Format::node))]
    fn node(&mut self) -> Result<Option<Element>, StreamError>
        ensures { Gives rules.node IsShape self.old self.new result }
    {
        self.area(NODE, NODETYPE)?;
        Ok(None)
    }

    // A box.
    #[tactic(auto, using(crate::proofs::Giving::of_box))]
    fn box_shape(&mut self) -> Result<Option<Element>, StreamError>
        ensures { Gives rules.box IsShape self.old self.new result }
    {
        let offset = self.place();
        let area = self.area(BOX, BOXTYPE)?;
        Ok(Some(Element::BoxShape {
            offset,
            layer: i16_of(area.layer),
            boxtype: i16_of(area.kind),
        }))
    }
}
