//! Reading lines.
ghost use Rattle.std.specs.Prelude.{◌≡◌, ◌≢◌, ℕ, true, false, List, [], length, None, IfOk, IfErr, IfSome, OnOk};
ghost use Rattle.std.specs.Option.{option_map};
ghost use Rattle.reo_grammar.specs.Lines.{Place as AnyPlace, Scripts, OfCircuit, is_allowed};
ghost use Rattle.reo_grammar.specs.Machine.Lines.{WantNode, WantA, WantName, WantPutNode, WantGetNode, FifoWord};
ghost use Rattle.reo_sentence.specs.Reading.{left, next_key, Goes, HasRoom};
ghost use Rattle.reo_sentence.specs.Said.{name_at, StandsIn};
ghost use Rattle.reo_sentence.specs.LineReading.{next_name, TakesName, ReadsKind, Finishes, ReadsLine, StopsLine, StopsKind, StopsStart, channel_word, place_of, word_of, is_port_key};

use crate::cursor::Cursor;
use crate::said::{Name, Sentence};
use crate::stop::Stop;
use reo_grammar::Key;
use reo_net::Kind;
use reo_token::Lexeme;
use reo_value::{Lexicon, Way};
use std::alloc::Global;

const LONGEST_NAME: usize = 64;

/// Where a line stands: before the first component, or behind one.
#[derive(Clone, Copy, Debug, PartialEq, Eq)]
pub enum Place {
    First,
    Circuit,
    Scripts,
}

/// The word in front of a channel.
#[derive(Clone, Copy)]
pub(crate) enum ChannelWord {
    Sync,
    Lossy,
    Drain,
    Fifo,
    Filter,
    Transform,
}

impl Cursor<'_> {
    /// A line that may stand in this place.
    pub(crate) fn sentence(
        &mut self,
        alloc: Global,
        texts: &mut Lexicon,
        place: Place,
    ) -> Result<Sentence, Stop>
        requires room { HasRoom self.old texts.old }
        ensures reads { IfOk result (ReadsLine (place_of place) self.old self.new texts.old texts.new) }
        ensures stops { IfErr result (StopsStart (place_of place) self.old self.new) }
    {
        match place {
            Place::First => self.circuit_line(alloc, texts),
            Place::Circuit => self.circuit_line(alloc, texts),
            Place::Scripts => self.script_line(alloc, texts),
        }
    }

    // A line before the first component.
    fn circuit_line(&mut self, alloc: Global, texts: &mut Lexicon) -> Result<Sentence, Stop>
        requires room { HasRoom self.old texts.old }
        ensures reads { IfOk result (λ s. (p : AnyPlace) → is_allowed p OfCircuit ≡ true → ReadsLine p self.old self.new texts.old texts.new s) }
        ensures stops { IfErr result (λ e. (p : AnyPlace) → is_allowed p OfCircuit ≡ true → StopsStart p self.old self.new e) }
    {
        match self.key() {
            Key::In => {
                self.advance();
                self.port(Way::Put)
            }
            Key::Out => {
                self.advance();
                self.port(Way::Get)
            }
            Key::Component => {
                self.advance();
                self.component()
            }
            key => self.channel_line(alloc, texts, key),
        }
    }

    // The line of a channel, which begins with this word.
    fn channel_line(
        &mut self,
        alloc: Global,
        texts: &mut Lexicon,
        key: Key,
    ) -> Result<Sentence, Stop>
        requires room { HasRoom self.old texts.old }
        requires seen { key ≡ next_key (left self.old) }
        requires other { is_port_key key ≡ false }
        ensures reads { IfOk result (λ s. (p : AnyPlace) → is_allowed p OfCircuit ≡ true → ReadsLine p self.old self.new texts.old texts.new s) }
        ensures stops { IfErr result (λ e. (p : AnyPlace) → is_allowed p OfCircuit ≡ true → StopsStart p self.old self.new e) }
    {
        let Some(word) = word_of(key) else {
            return Err(Stop::Syntax);
        };
        self.advance();
        self.channel(alloc, texts, word)
    }

    // A line behind a component line.
    fn script_line(&mut self, alloc: Global, texts: &mut Lexicon) -> Result<Sentence, Stop>
        requires room { HasRoom self.old texts.old }
        ensures reads { IfOk result (ReadsLine Scripts self.old self.new texts.old texts.new) }
        ensures stops { IfErr result (StopsStart Scripts self.old self.new) }
    {
        match self.key() {
            Key::Put => {
                self.advance();
                self.put(alloc, texts)
            }
            Key::Get => {
                self.advance();
                self.get()
            }
            Key::Component => {
                self.advance();
                self.component()
            }
            _ => Err(Stop::Syntax),
        }
    }

    // Behind `in` or `out`: a node.
    fn port(&mut self, way: Way) -> Result<Sentence, Stop>
        ensures reads { (texts : List (List ℕ)) → IfOk result (Finishes (WantNode way) self.old self.new texts texts) }
        ensures stops { IfErr result (StopsLine (WantNode way) self.old self.new) }
    {
        let node = self.name()?;
        self.end()?;
        Ok(Sentence::Port(way, node))
    }

    // Behind the word of a channel: its nodes, and what belongs to its kind.
    fn channel(
        &mut self,
        alloc: Global,
        texts: &mut Lexicon,
        word: ChannelWord,
    ) -> Result<Sentence, Stop>
        requires room { HasRoom self.old texts.old }
        ensures reads { IfOk result (Finishes (WantA (channel_word word)) self.old self.new texts.old texts.new) }
        ensures stops { IfErr result (StopsLine (WantA (channel_word word)) self.old self.new) }
    {
        let a = self.name()?;
        let b = self.name()?;
        let kind = self.kind(alloc, texts, word)?;
        self.end()?;
        Ok(Sentence::Channel(kind, a, b))
    }

    fn kind(&mut self, alloc: Global, texts: &mut Lexicon, word: ChannelWord) -> Result<Kind, Stop>
        requires room { HasRoom self.old texts.old }
        ensures reads { IfOk result (ReadsKind (channel_word word) self.old self.new texts.old texts.new) }
        ensures stops { IfErr result (StopsKind (channel_word word) self.old self.new) }
    {
        match word {
            ChannelWord::Sync => Ok(Kind::Sync),
            ChannelWord::Lossy => Ok(Kind::Lossy),
            ChannelWord::Drain => Ok(Kind::Drain),
            ChannelWord::Fifo => self.buffer(alloc, texts),
            ChannelWord::Filter => Ok(Kind::Filter(self.guard(alloc, texts)?)),
            ChannelWord::Transform => Ok(Kind::Transform(self.function(alloc, texts)?)),
        }
    }

    // A buffer that is empty at first, or full.
    fn buffer(&mut self, alloc: Global, texts: &mut Lexicon) -> Result<Kind, Stop>
        requires room { HasRoom self.old texts.old }
        ensures reads { IfOk result (ReadsKind FifoWord self.old self.new texts.old texts.new) }
        ensures stops { IfErr result (StopsKind FifoWord self.old self.new) }
    {
        if !self.sees(Key::Full) {
            return Ok(Kind::Fifo(None));
        }
        self.advance();
        let first = self.constant(alloc, texts)?;
        Ok(Kind::Fifo(Some(first)))
    }

    fn component(&mut self) -> Result<Sentence, Stop>
        ensures reads { (texts : List (List ℕ)) → IfOk result (Finishes WantName self.old self.new texts texts) }
        ensures stops { IfErr result (StopsLine WantName self.old self.new) }
    {
        let name = self.name()?;
        self.end()?;
        Ok(Sentence::Component(name))
    }

    // Behind `put`: a node and a datum.
    fn put(&mut self, alloc: Global, texts: &mut Lexicon) -> Result<Sentence, Stop>
        requires room { HasRoom self.old texts.old }
        ensures reads { IfOk result (Finishes WantPutNode self.old self.new texts.old texts.new) }
        ensures stops { IfErr result (StopsLine WantPutNode self.old self.new) }
    {
        let node = self.name()?;
        let value = self.constant(alloc, texts)?;
        self.end()?;
        Ok(Sentence::Put(node, value))
    }

    fn get(&mut self) -> Result<Sentence, Stop>
        ensures reads { (texts : List (List ℕ)) → IfOk result (Finishes WantGetNode self.old self.new texts texts) }
        ensures stops { IfErr result (StopsLine WantGetNode self.old self.new) }
    {
        let node = self.name()?;
        self.end()?;
        Ok(Sentence::Get(node))
    }

    /// Takes a name.
    fn name(&mut self) -> Result<Name, Stop>
        ensures taken { IfOk result (λ name. TakesName self.old self.new (name_at self.old.line.now name)) }
        ensures within { IfOk result (StandsIn (length self.old.line.now)) }
        ensures refused { IfErr result (λ e. (e ≡ Stop.Syntax) × Goes self.old self.new [] × (next_name (left self.old) ≡ None)) }
    {
        let Some(name) = self.next_name() else {
            return Err(Stop::Syntax);
        };
        self.advance();
        Ok(name)
    }

    // The next token, where it is a name.
    fn next_name(&self) -> Option<Name>
        ensures name { option_map (name_at self.now.line.now) result ≡ next_name (left self.now) }
        ensures within { IfSome result (StandsIn (length self.now.line.now)) }
    {
        let token = self.rest.first()?;
        match token.lexeme {
            Lexeme::Word => {
                if (token.end - token.start) as usize <= LONGEST_NAME {
                    Some(Name {
                        start: token.start,
                        end: token.end,
                    })
                } else {
                    None
                }
            }
            _ => None,
        }
    }

    // Nothing is left.
    fn end(&self) -> Result<(), Stop>
        ensures over { OnOk result (left self.now ≡ []) }
        ensures refused { IfErr result (λ e. (e ≡ Stop.Syntax) × (left self.now ≢ [])) }
    {
        if self.rest.is_empty() {
            Ok(())
        } else {
            Err(Stop::Syntax)
        }
    }
}

// The channel that begins with this word.
fn word_of(key: Key) -> Option<ChannelWord>
    ensures { option_map channel_word result ≡ word_of key }
{
    match key {
        Key::Sync => Some(ChannelWord::Sync),
        Key::Lossy => Some(ChannelWord::Lossy),
        Key::Drain => Some(ChannelWord::Drain),
        Key::Fifo => Some(ChannelWord::Fifo),
        Key::Filter => Some(ChannelWord::Filter),
        Key::Transform => Some(ChannelWord::Transform),
        _ => None,
    }
}
