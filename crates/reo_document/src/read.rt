//! Reading the lines of a document.
ghost use Rattle.std.specs.Prelude.{◌≡◌, ◌≢◌, ℕ, ◌+◌, ◌<◌, ◌≤◌, ◌^◌, [], length, All, IsUtf8, OnOk, IfOk, IfErr, IfSome};
ghost use Rattle.reo_token.specs.Cut.{cut, IsWithin};
ghost use Rattle.reo_token.specs.declared.token.End.TheVariants.{Over as IsOver};
ghost use Rattle.reo_grammar.specs.Lines.{Scripts as BehindComponents};
ghost use Rattle.reo_sentence.specs.Said.{ComponentSaid, IsNameIn, AreNamesIn, name_at, said};
ghost use Rattle.reo_sentence.specs.LineReading.{place_of};
ghost use Rattle.reo_document.specs.Placed.{with_said};
ghost use Rattle.std.specs.Option.{option_copied};
ghost use Rattle.reo_document.specs.Plain.{IsPlain};
ghost use Rattle.reo_document.specs.Spells.{place_in, refusal_at, Leads, LinesLead, Goes, Spells};
ghost use Rattle.reo_document.specs.Builder.{data_of, operation_said, way_with, HasRoom, KnowsScripts, KnowsPorts};
ghost use Rattle.reo_document.specs.Reading.{GoesPast, StopsWith, StopsIn, IsRefusalOf, LeadsTo, StopsAs};
ghost use Rattle.reo_document.specs.Lines.{lines_of};

use crate::builder::{Builder, name_in};
use crate::lines::next_line;
use crate::plain::{Plain, plain_operation};
use crate::refusal::{Misplaced, TextRefusal};
use reo_sentence::{LineRefusal, Name, Place, Sentence, read_line};
use reo_token::{End, Token, cut_line};
use reo_value::{Value, Way};
use std::alloc::Global;

impl Builder {
    /// Adds the line of this number.
    pub(crate) fn read(
        &mut self,
        alloc: Global,
        tokens: &mut Vec<Token>,
        line: &[u8],
        number: u32,
    ) -> Result<(), TextRefusal>
        requires short { length line.now < 2 ^ 31 }
        requires utf8 { IsUtf8 line.now }
        requires room { HasRoom (data_of self.old) (length line.now) }
        requires scripts { KnowsScripts self.old }
        requires ports { KnowsPorts self.old }
        ensures goes { OnOk result (Leads (data_of self.old) number line.now (Goes (data_of self.new))) }
        ensures scripts { OnOk result (KnowsScripts self.new) }
        ensures ports { OnOk result (KnowsPorts self.new) }
        ensures stops { IfErr result (StopsWith (data_of self.old) number line.now) }
        ensures lines { OnOk result (length self.new.lines.items ≤ length self.old.lines.items + 1) }
        ensures room { OnOk result ((more : ℕ) → HasRoom (data_of self.old) (length line.now + 1 + more) → HasRoom (data_of self.new) more) }
    {
        let Ok(end) = cut_line(tokens, line) else {
            return Err(TextRefusal::NoMemory);
        };
        match end {
            End::Bad(at) => Err(TextRefusal::Syntax(number, at + 1)),
            End::Large => Err(TextRefusal::LineLarge(number)),
            End::Over => {
                let tokens = tokens.as_slice();
                if tokens.is_empty() {
                    return Ok(());
                }
                self.read_tokens(alloc, tokens, line, number)
            }
        }
    }

    // Adds the line of this number, which has these tokens.
    fn read_tokens(
        &mut self,
        alloc: Global,
        tokens: &[Token],
        line: &[u8],
        number: u32,
    ) -> Result<(), TextRefusal>
        requires short { length line.now < 2 ^ 31 }
        requires utf8 { IsUtf8 line.now }
        requires room { HasRoom (data_of self.old) (length line.now) }
        requires scripts { KnowsScripts self.old }
        requires ports { KnowsPorts self.old }
        requires cut { (tokens.now, IsOver) ≡ cut 512 0 line.now }
        requires within { All (IsWithin (length line.now)) tokens.now }
        requires some { tokens.now ≢ [] }
        ensures goes { OnOk result (Leads (data_of self.old) number line.now (Goes (data_of self.new))) }
        ensures scripts { OnOk result (KnowsScripts self.new) }
        ensures ports { OnOk result (KnowsPorts self.new) }
        ensures stops { IfErr result (StopsWith (data_of self.old) number line.now) }
        ensures lines { OnOk result (length self.new.lines.items ≤ length self.old.lines.items + 1) }
        ensures room { OnOk result ((more : ℕ) → HasRoom (data_of self.old) (length line.now + 1 + more) → HasRoom (data_of self.new) more) }
    {
        let place = self.place();
        match read_line(alloc, line, tokens, place, &mut self.texts) {
            Ok(sentence) => self.stand(alloc, line, sentence, number),
            Err(LineRefusal::Syntax(column)) => Err(TextRefusal::Syntax(number, column)),
            Err(LineRefusal::NumberRange) => Err(TextRefusal::NumberRange(number)),
            Err(LineRefusal::TextLong) => Err(TextRefusal::TextLong(number)),
            Err(LineRefusal::NoMemory) => Err(TextRefusal::NoMemory),
        }
    }

    // Adds what the line of this number says, where it may stand here.
    fn stand(
        &mut self,
        alloc: Global,
        line: &[u8],
        sentence: Sentence,
        number: u32,
    ) -> Result<(), TextRefusal>
        requires room { length self.old.lines.items < 2 ^ 31 }
        requires nodes { length self.old.nodes + 2 ≤ 16777216 }
        requires people { length self.old.people < 16777216 }
        requires scripts { KnowsScripts self.old }
        requires ports { KnowsPorts self.old }
        requires names { AreNamesIn line.now sentence }
        ensures exact { OnOk result (data_of self.new ≡ with_said (data_of self.old) (said line.now sentence)) }
        ensures goes { LeadsTo (data_of self.old) number line.now (said line.now sentence) result (data_of self.new) }
        ensures stops { StopsAs (data_of self.old) number line.now (said line.now sentence) result }
        ensures scripts { OnOk result (KnowsScripts self.new) }
        ensures ports { OnOk result (KnowsPorts self.new) }
        ensures lines { OnOk result (length self.new.lines.items ≤ length self.old.lines.items + 1) }
    {
        match sentence {
            Sentence::Port(way, node) => self
                .add_port(alloc, name_in(line, node), way)
                .map_err(|_| TextRefusal::NoMemory),
            Sentence::Channel(kind, a, b) => self
                .add_channel(alloc, kind, name_in(line, a), name_in(line, b))
                .map_err(|_| TextRefusal::NoMemory),
            Sentence::Component(name) => self.begin(alloc, line, name, number),
            Sentence::Put(node, value) => self.operate(line, node, Some(value), number),
            Sentence::Get(node) => self.operate(line, node, None, number),
        }
    }

    // Begins the script of a component of this name, where one may stand here.
    fn begin(
        &mut self,
        alloc: Global,
        line: &[u8],
        name: Name,
        number: u32,
    ) -> Result<(), TextRefusal>
        requires people { length self.old.people < 16777216 }
        requires scripts { KnowsScripts self.old }
        requires ports { KnowsPorts self.old }
        requires name { IsNameIn line.now name }
        ensures exact { OnOk result (data_of self.new ≡ with_said (data_of self.old) (ComponentSaid (name_at line.now name))) }
        ensures goes { LeadsTo (data_of self.old) number line.now (ComponentSaid (name_at line.now name)) result (data_of self.new) }
        ensures stops { StopsAs (data_of self.old) number line.now (ComponentSaid (name_at line.now name)) result }
        ensures scripts { OnOk result (KnowsScripts self.new) }
        ensures ports { OnOk result (KnowsPorts self.new) }
        ensures lines { OnOk result (self.new.lines.items ≡ self.old.lines.items) }
    {
        match self.misplaced_component(line, name) {
            Some(why) => Err(refusal_at(number, why)),
            None => self
                .add_component(alloc, name_in(line, name))
                .map_err(|_| TextRefusal::NoMemory),
        }
    }

    // Adds a put of the value at the node of this name, or a get there, where it may stand here.
    #[inline(always)]
    fn operate(
        &mut self,
        line: &[u8],
        node: Name,
        value: Option<Value>,
        number: u32,
    ) -> Result<(), TextRefusal>
        requires scripts { KnowsScripts self.old }
        requires ports { KnowsPorts self.old }
        requires name { IsNameIn line.now node }
        ensures exact { OnOk result (data_of self.new ≡ with_said (data_of self.old) (operation_said (name_at line.now node) value)) }
        ensures goes { LeadsTo (data_of self.old) number line.now (operation_said (name_at line.now node) value) result (data_of self.new) }
        ensures stops { StopsAs (data_of self.old) number line.now (operation_said (name_at line.now node) value) result }
        ensures scripts { OnOk result (KnowsScripts self.new) }
        ensures ports { OnOk result (KnowsPorts self.new) }
        ensures lines { OnOk result (self.new.lines.items ≡ self.old.lines.items) }
    {
        let node = self.node(line, node);
        let port = self.port(node);
        match self.misplaced_at(port, way_with(&value)) {
            Some(why) => Err(refusal_at(number, why)),
            None => self
                .add_operation(node, port, value)
                .map_err(|_| TextRefusal::NoMemory),
        }
    }

    // The operation that the first line, behind a component line, says in its plainest spelling.
    #[inline(always)]
    fn plain(&self, bytes: &[u8]) -> Option<Plain>
        ensures plain { IfSome result (IsPlain bytes.now) }
        ensures place { IfSome result (λ _. place_in (data_of self.now) ≡ BehindComponents) }
    {
        if self.people.is_empty() {
            return None;
        }
        plain_operation(bytes)
    }

    // Adds the first line, which has this number, and answers what follows it.
    #[inline(always)]
    fn read_next<'a>(
        &mut self,
        alloc: Global,
        tokens: &mut Vec<Token>,
        bytes: &'a [u8],
        number: u32,
    ) -> Result<Option<&'a [u8]>, TextRefusal>
        requires short { length bytes.now < 2 ^ 31 }
        requires utf8 { IsUtf8 bytes.now }
        requires room { HasRoom (data_of self.old) (length bytes.now) }
        requires scripts { KnowsScripts self.old }
        requires ports { KnowsPorts self.old }
        ensures goes { IfOk result (λ more. GoesPast (data_of self.old) number bytes.now (data_of self.new) (option_copied more)) }
        ensures scripts { OnOk result (KnowsScripts self.new) }
        ensures ports { OnOk result (KnowsPorts self.new) }
        ensures stops { IfErr result (StopsIn (data_of self.old) number (lines_of bytes.now)) }
        ensures lines { OnOk result (length self.new.lines.items ≤ length self.old.lines.items + 1) }
    {
        if let Some(plain) = self.plain(bytes) {
            self.operate(&bytes[..plain.len], plain.node, plain.value, number)?;
            return Ok(Some(&bytes[plain.len + 1..]));
        }
        let (line, more) = next_line(bytes);
        self.read(alloc, tokens, line, number)?;
        Ok(more)
    }

    // Where the next line stands.
    fn place(&self) -> Place
        ensures { place_of result ≡ place_in (data_of self.now) }
    {
        if self.people.is_empty() {
            Place::Circuit
        } else {
            Place::Scripts
        }
    }
}

// A put has a value, and a get none.
fn way_with(value: &Option<Value>) -> Way
    ensures { result ≡ way_with value.now }
{
    match value {
        Some(_) => Way::Put,
        None => Way::Get,
    }
}

fn refusal_at(number: u32, why: Misplaced) -> TextRefusal
    ensures { result ≡ refusal_at number why }
{
    match why {
        Misplaced::TooManyComponents => TextRefusal::TooManyComponents(number),
        Misplaced::ComponentTwice => TextRefusal::ComponentTwice(number),
        Misplaced::UnknownPort => TextRefusal::UnknownPort(number),
        Misplaced::WrongWay => TextRefusal::WrongWay(number),
        Misplaced::PortShared => TextRefusal::PortShared(number),
        Misplaced::TooManyOps => TextRefusal::TooManyOps(number),
    }
}

/// The document that the bytes spell, by its parts.
pub(crate) fn read_parts(alloc: Global, bytes: &[u8]) -> Result<Builder, TextRefusal>
    requires { length bytes.now ≤ 8388608 }
    ensures spells { IfOk result (λ builder. Spells bytes.now (data_of builder)) }
    ensures refused { IfErr result (IsRefusalOf bytes.now) }
{
    if let Err(error) = str::from_utf8(bytes) {
        return Err(TextRefusal::NotUtf8(error.valid_up_to() as u32));
    }
    let mut builder = Builder::new(alloc);
    read_lines(alloc, &mut builder, bytes)?;
    Ok(builder)
}

// Adds all lines.
fn read_lines(alloc: Global, builder: &mut Builder, bytes: &[u8]) -> Result<(), TextRefusal>
    requires short { length bytes.now ≤ 8388608 }
    requires utf8 { IsUtf8 bytes.now }
    requires none { length builder.old.lines.items ≡ 0 }
    requires room { HasRoom (data_of builder.old) (length bytes.now) }
    requires scripts { KnowsScripts builder.old }
    requires ports { KnowsPorts builder.old }
    ensures goes { OnOk result (LinesLead (data_of builder.old) 1 (lines_of bytes.now) (Goes (data_of builder.new))) }
    ensures stops { IfErr result (StopsIn (data_of builder.old) 1 (lines_of bytes.now)) }
{
    let mut tokens = Vec::new(alloc);
    let mut rest = bytes;
    let mut number = 1;
    'lines: loop {
        let Some(more) = builder.read_next(alloc, &mut tokens, rest, number)? else {
            return Ok(());
        };
        rest = more;
        number += 1;
    }
}
