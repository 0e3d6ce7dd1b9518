//! Where reading stands in some bytes, and how a record is looked at, taken and passed. It knows no element.
ghost use Rattle.std.specs.Prelude.{◌≡◌, ◌+◌, ◌*◌, ◌^◌, ◌<◌, ◌≤◌, ◌&&◌, ◌==◌, ◌++◌, [], ◌∷◌, length, drop, true, false, IfOk, IfSome, OnOk, MatchBool, MatchOption, MatchResult, option_copied, All, if◌then◌else◌, Some, None};
ghost use Rattle.std.specs.Bool.{OnTrue};
ghost use Rattle.rt_base.specs.Text.{IsText};
ghost use Rattle.gds_records.specs.declared.reading.RecordError.{RecordError};
ghost use Rattle.gds_records.specs.Records.{unit};
ghost use Rattle.gds_records.specs.Framing.{item_at};
ghost use Rattle.gds_grammar.specs.Grammar.{type, many};
ghost use Rattle.gds_grammar.specs.Grammar as grammar;
ghost use Rattle.gds_grammar.specs.Format.{skipped, property};
ghost use Rattle.gds_grammar.specs.Conditions.{is_in, trim, is_number, form_of, number_count, names_in, starts, Counted, Readable};
ghost use Rattle.gds_grammar.specs.Tests.{counted, readable, is_repeated};
ghost use Rattle.gds_grammar.specs.Reading as reads;
ghost use Rattle.gds_grammar.specs.Reading.{start, behind};
ghost use Rattle.gds_stream.specs.Gives.{Peeks, Sees, Accepts, Takes, IsWithin, Gives, IsOne, IsOneOrNone, Has, AreZeros, IsBehindZeros, IsOther, Finds, body_between};

use crate::counting::{is_counted, is_readable};
use crate::data::text_of;
use crate::error::StreamError;
use gds_grammar::Cause;
use gds_records::{PROPATTR, PROPVALUE, Part, RecordError, SKIPPED, STARTS, STRNAME, next_record};
use indexmap::IndexSet;
use rt_base::{OutOfMemory, Text};
use std::alloc::Global;
use std::marker::Model;

/// The record that comes next: its type, its data type, and the place of the first byte behind it.
#[derive(Clone, Copy)]
pub struct Ahead {
    code: u8,
    form: u8,
    next: u64,
}

/// Where reading stands in some bytes: the place of the next record, what stands there or why no record does, the element
/// that began last, and the names of the structures before. Each record is framed once, when reading comes to it.
#[derive(Drop)]
pub struct Reader<'a> {
    alloc: Global,
    bytes: &'a [u8],
    at: u64,
    ahead: Result<Ahead, Cause>,
    element: Option<u8>,
    names: IndexSet<Text>,
}

impl<'a> Model for Reader<'a> {
    ghost use Rattle.std.specs.Prelude.{◌≤◌, length, drop};
    ghost use Rattle.gds_grammar.specs.Reading.{Cursor};
    ghost use Rattle.gds_stream.specs.Gives.{Finds};

    ghost Value = { Cursor };

    ghost view = { λ r. record { at = r.at; rest = drop r.at r.bytes.now; kind = r.element; names = r.names.keys } };

    ghost invariant = { λ r. (r.at ≤ length r.bytes.now) × Finds r.bytes.now r.at r.ahead };
}

impl<'a> Reader<'a> {
    /// At the start of the bytes.
    pub fn new(alloc: Global, bytes: &'a [u8]) -> Reader<'a>
        ensures { result ≡ start bytes.now }
    {
        Reader {
            alloc,
            bytes,
            at: 0,
            ahead: look(bytes, 0),
            element: None,
            names: IndexSet::new(alloc),
        }
    }

    /// The place of the next record.
    pub fn place(&self) -> u64
        ensures { result ≡ self.now.at }
    {
        self.at
    }

    /// The allocator.
    pub fn alloc(&self) -> Global {
        self.alloc
    }

    /// The bytes from the next record on.
    pub fn rest(&self) -> &'a [u8]
        ensures value { result.now ≡ self.now.rest }
        ensures bytes { All (λ b. b < 256) self.now.rest }
        ensures short { length self.now.rest < 2 ^ 63 }
    {
        tail(self.bytes, self.at)
    }

    /// The next record.
    #[inline(always)]
    pub fn peek(&self) -> Result<Part<'a>, StreamError>
        ensures next { Peeks self.now result }
        ensures within { IfOk result (λ p. IsWithin p self.now) }
    {
        match self.ahead {
            Ok(ahead) => Ok(Part {
                code: ahead.code,
                form: ahead.form,
                body: body_of(self.bytes, self.at, ahead.next),
                next: ahead.next,
            }),
            Err(cause) => Err(self.fault(cause)),
        }
    }

    /// Whether the next record has one of these types.
    #[inline(always)]
    pub fn sees(&self, codes: &[u8]) -> Result<bool, StreamError>
        ensures { Sees codes.now self.now result }
    {
        let part = self.peek()?;
        Ok(codes.contains(&part.code))
    }

    // The fault of this cause where reading stands.
    fn fault(&self, cause: Cause) -> StreamError
        ensures { result ≡ StreamError.At self.now.at cause }
    {
        StreamError::At {
            offset: self.at,
            cause,
        }
    }

    // The element that began last.
    fn kind(&self) -> Option<u8>
        ensures { result ≡ self.now.kind }
    {
        self.element
    }

    // The next record, where it has one of these types and is as it should be, but for its name.
    #[tactic(auto, using(crate::proofs::Taking::fault_taken))]
    #[inline(always)]
    fn accepted(&self, codes: &[u8]) -> Result<Part<'a>, StreamError>
        ensures accepts { Accepts codes.now self.now result }
        ensures within { IfOk result (λ p. IsWithin p self.now) }
    {
        let part = self.peek()?;
        if !codes.contains(&part.code) {
            return Err(self.fault(Cause::Unexpected { code: part.code }));
        }
        if !is_counted(self.kind(), part.code, part.body) {
            return Err(self.fault(Cause::WrongData));
        }
        if !is_readable(part.code, part.body) {
            return Err(self.fault(Cause::BadText));
        }
        Ok(part)
    }

    /// A record of one of these types.
    #[inline(always)]
    pub fn take_one(&mut self, codes: &[u8]) -> Result<Part<'a>, StreamError>
        ensures takes { Takes codes.now self.old self.new result }
        ensures kind { IfOk result (λ p. self.new.kind ≡ (if is_in starts p.code then Some p.code else self.old.kind)) }
        ensures code { IfOk result (λ p. is_in codes.now p.code ≡ true) }
        ensures counts { IfOk result (λ p. Counted self.old.kind (item_at self.old.at p)) }
        ensures reads { IfOk result (λ p. Readable (item_at self.old.at p)) }
    {
        let part = self.accepted(codes)?;
        if !self.is_new(&part)? {
            return Err(self.fault(Cause::DuplicateName));
        }
        self.advance(&part);
        Ok(part)
    }

    /// The data of a record of this type.
    #[tactic(auto, using(crate::proofs::Giving::fault_alone))]
    #[inline(always)]
    pub fn take(&mut self, code: u8) -> Result<&'a [u8], StreamError>
        ensures gives { Gives (type code) (λ items body. IsOne self.old.at code body.now items) self.old self.new result }
        ensures has { IfOk result (λ body. Has self.old.kind code body.now) }
        ensures kind { OnOk result (self.new.kind ≡ (if is_in starts code then Some code else self.old.kind)) }
    {
        let part = self.take_one(&[code])?;
        Ok(part.body)
    }

    /// The data of a record of this type, if the next record is one.
    #[tactic(auto, using(crate::proofs::Giving::fault_choice))]
    #[inline(always)]
    pub fn maybe(&mut self, code: u8) -> Result<Option<&'a [u8]>, StreamError>
        ensures gives { Gives (grammar.maybe (type code)) (λ items body. IsOneOrNone self.old.at code (option_copied body) items) self.old self.new result }
        ensures numbers { IfOk result (λ found. IfSome found (λ body. OnTrue (is_number code) (length body.now ≡ number_count code * unit (form_of code)))) }
        ensures kind { OnOk result (is_in starts code ≡ false → self.new.kind ≡ self.old.kind) }
    {
        if self.sees(&[code])? {
            let body = self.take(code)?;
            Ok(Some(body))
        } else {
            Ok(None)
        }
    }

    /// Records that are skipped.
    #[tactic(auto, using(crate::proofs::Looping::loop_stops))]
    pub fn skip(&mut self) -> Result<(), StreamError>
        ensures { Gives (many skipped) (λ _ _. Unit {0}) self.old self.new result }
    {
        let _rest = self.rest();
        while self.sees(&SKIPPED)? {
            self.skip_one()?;
        }
        Ok(())
    }

    // A record that is skipped.
    #[tactic(auto, unfolding(gds_grammar::specs::Format::skipped), using(crate::proofs::Giving::fault_alone))]
    fn skip_one(&mut self) -> Result<(), StreamError>
        ensures { Gives skipped (λ _ _. Unit {0}) self.old self.new result }
    {
        self.take_one(&SKIPPED)?;
        Ok(())
    }

    /// Properties, which are dropped.
    #[tactic(auto, using(crate::proofs::Looping::loop_stops))]
    pub fn properties(&mut self) -> Result<(), StreamError>
        ensures { Gives (many property) (λ _ _. Unit {0}) self.old self.new result }
    {
        let _rest = self.rest();
        while self.sees(&[PROPATTR])? {
            self.property()?;
        }
        Ok(())
    }

    // A property.
    #[tactic(auto, unfolding(gds_grammar::specs::Format::property), using(crate::proofs::Giving::steps))]
    fn property(&mut self) -> Result<(), StreamError>
        ensures { Gives property (λ _ _. Unit {0}) self.old self.new result }
    {
        self.take(PROPATTR)?;
        self.take(PROPVALUE)?;
        Ok(())
    }

    /// Nothing but zeros is left.
    pub fn zeros(&self) -> Result<(), StreamError>
        ensures { MatchResult result (λ _. AreZeros self.now.rest) (λ e. IsOther self.now e) }
    {
        match first_other(self.rest()) {
            Some((i, byte)) => Err(StreamError::At {
                offset: self.at + i as u64,
                cause: Cause::Unexpected { code: byte },
            }),
            None => Ok(()),
        }
    }

    // Whether no structure before has the name in the record, if one is there. It is among the names from then on.
    #[inline(always)]
    fn is_new(&mut self, part: &Part<'_>) -> Result<bool, OutOfMemory>
        requires { Readable (item_at self.old.at part.now) }
        ensures { IfOk result (λ new. MatchBool new
            ((is_repeated self.old.names (item_at self.old.at part.now) ≡ false)
            × (self.new ≡ record self.old { names = self.old.names ++ names_in (item_at self.old.at part.now ∷ []) }))
            ((is_repeated self.old.names (item_at self.old.at part.now) ≡ true) × (self.new ≡ self.old))) }
    {
        if part.code != STRNAME {
            return Ok(true);
        }
        let name = text_of(self.alloc, part.body)?;
        let (_, added) = self.names.insert_full(name)?;
        Ok(added)
    }

    // Goes behind the record, which is the next.
    #[inline(always)]
    fn advance(&mut self, part: &Part<'_>)
        requires { IsWithin part.now self.old }
        ensures { self.new ≡ record (behind self.old (item_at self.old.at part.now)) { names = self.old.names } }
    {
        self.element = kind_after(self.element, part.code);
        self.at = part.next;
        self.ahead = look(self.bytes, part.next);
    }
}

// The element that began last, behind a record of this type.
fn kind_after(element: Option<u8>, code: u8) -> Option<u8>
    ensures { result ≡ (if is_in starts code then Some code else element) }
{
    if STARTS.contains(&code) {
        Some(code)
    } else {
        element
    }
}

// The first byte that isn't 0, and its place.
fn first_other(bytes: &[u8]) -> Option<(usize, u8)>
    ensures { MatchOption result (AreZeros bytes.now) (λ found. IsBehindZeros bytes.now found.0 found.1) }
{
    for (i, byte) in bytes.iter().enumerate() {
        if *byte != 0 {
            return Some((i, *byte));
        }
    }
    None
}

// What comes at a place.
#[inline(never)]
fn look(bytes: &[u8], at: u64) -> Result<Ahead, Cause>
    requires { at ≤ length bytes.now }
    ensures { Finds bytes.now at result }
{
    if at == bytes.len() as u64 {
        return Err(Cause::NotClosed);
    }
    match next_record(bytes, at) {
        Ok(part) => Ok(Ahead {
            code: part.code,
            form: part.form,
            next: part.next,
        }),
        Err(error) => Err(cause_of(error)),
    }
}

// The data of the record from a place to another.
fn body_of(bytes: &[u8], at: u64, next: u64) -> &[u8]
    requires begins { at + 4 ≤ next }
    requires ends { next ≤ length bytes.now }
    ensures { result.now ≡ body_between bytes.now at next }
{
    &bytes[at as usize + 4..next as usize]
}

// The bytes from a place on.
fn tail(bytes: &[u8], at: u64) -> &[u8]
    requires { at ≤ length bytes.now }
    ensures value { result.now ≡ drop at bytes.now }
    ensures bytes { All (λ b. b < 256) result.now }
{
    &bytes[at as usize..]
}

// The cause of a fault of framing.
fn cause_of(error: RecordError) -> Cause
    ensures { result ≡ reads.cause_of error }
{
    match error {
        RecordError::Short => Cause::Short,
        RecordError::OddLength => Cause::OddLength,
        RecordError::LengthBelow4 => Cause::LengthBelow4,
        RecordError::UnknownType => Cause::UnknownType,
        RecordError::WrongData => Cause::WrongData,
    }
}
