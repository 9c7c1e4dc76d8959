//! The tokens of a line that are still to be read.
ghost use Rattle.std.specs.Prelude.{length, All, IsUtf8};
ghost use Rattle.reo_token.specs.Cut.{IsWithin};
ghost use Rattle.reo_sentence.specs.Seen.{IsQuoted};

use crate::number::number;
use crate::stop::Stop;
use crate::text::add_value;
use reo_grammar::{Key, key_of};
use reo_token::{Lexeme, Symbol, Token};
use reo_value::{Lexicon, Num, Value};
use std::alloc::Global;

/// The tokens of a line that are left, and what was noted about those before.
#[derive(Drop)]
pub(crate) struct Cursor<'a> {
    pub(crate) line: &'a [u8],
    pub(crate) rest: &'a [Token],
    /// Some number is out of its range.
    pub(crate) is_wide: bool,
    /// Some text is too long.
    pub(crate) is_long: bool,
    ghost within: { All (IsWithin (length line.now)) rest.now },
    ghost quoted: { All (IsQuoted line.now) rest.now },
    ghost utf8: { ∥ IsUtf8 line.now ∥₁ },
}

impl<'a> Cursor<'a> {
    ghost use Rattle.std.specs.Option.{option_map, option_copied};
    ghost use Rattle.reo_grammar.specs.Token.{Sign};
    ghost use Rattle.std.specs.Prelude.{◌≡◌, ◌≢◌, ◌↔◌, IsTrue, false, [], Some, None, is_none, OnOk, IfOk, IfErr, IfSome};
    ghost use Rattle.reo_grammar.specs.Machine.Guards.{token_key};
    ghost use Rattle.reo_sentence.specs.Limits.{in_range};
    ghost use Rattle.reo_sentence.specs.Seen.{seen, unescaped as text_value};
    ghost use Rattle.reo_sentence.specs.Reading.{left, next_key, next_symbol, next_number, next_text, next_const, Takes, Advances, Goes, HasRoom, Notes, TakesNumber, ReadsText, ReadsConst, Refuses};

    /// What the next token means as a word.
    pub(crate) fn key(&self) -> Key
        ensures { result ≡ next_key (left self.now) }
    {
        match self.rest.first() {
            Some(token) => self.key_at(token),
            None => Key::Other,
        }
    }

    /// Whether the next token is this word.
    pub(crate) fn sees(&self, key: Key) -> bool
        ensures { IsTrue result ↔ (next_key (left self.now) ≡ key) }
    {
        self.key() == key
    }

    fn key_at(&self, token: &Token) -> Key
        requires { IsWithin (length self.now.line.now) token.now }
        ensures { result ≡ token_key (seen self.now.line.now token.now) }
    {
        match token.lexeme {
            Lexeme::Word => key_of(&self.line[token.start as usize..token.end as usize]),
            _ => Key::Other,
        }
    }

    /// The next token, where it is a symbol.
    pub(crate) fn symbol(&self) -> Option<Symbol>
        ensures { result ≡ next_symbol (left self.now) }
    {
        match self.rest.first()?.lexeme {
            Lexeme::Sign(symbol) => Some(symbol),
            _ => None,
        }
    }

    /// Whether the next token is this symbol.
    pub(crate) fn sees_symbol(&self, symbol: Symbol) -> bool
        ensures { IsTrue result ↔ (next_symbol (left self.now) ≡ Some symbol) }
    {
        self.symbol() == Some(symbol)
    }

    /// Takes the next token.
    pub(crate) fn advance(&mut self)
        requires { self.old.rest.now ≢ [] }
        ensures { Advances self.old self.new }
    {
        self.rest = &self.rest[1..];
    }

    /// Takes this symbol.
    pub(crate) fn expect(&mut self, symbol: Symbol) -> Result<(), Stop>
        ensures taken { OnOk result (Takes self.old self.new (Sign symbol)) }
        ensures refused { IfErr result (λ e. (e ≡ Stop.Syntax) × Goes self.old self.new [] × (next_symbol (left self.old) ≢ Some symbol)) }
    {
        if self.symbol() != Some(symbol) {
            return Err(Stop::Syntax);
        }
        self.advance();
        Ok(())
    }

    /// Takes a number, which is given where it is in range.
    pub(crate) fn number(&mut self) -> Result<Option<Num>, Stop>
        ensures taken { IfOk result (λ number. TakesNumber self.old self.new number) }
        ensures refused { IfErr result (λ e. (e ≡ Stop.Syntax) × Goes self.old self.new [] × (next_number (left self.old) ≡ None)) }
    {
        let Some(number) = self.next_number() else {
            return Err(Stop::Syntax);
        };
        self.advance();
        Ok(number)
    }

    /// The next token, where it is a number, and then its number, where that is in range.
    fn next_number(&self) -> Option<Option<Num>>
        ensures { result ≡ option_map in_range (next_number (left self.now)) }
    {
        let token = self.rest.first()?;
        match token.lexeme {
            Lexeme::Number => Some(number(&self.line[token.start as usize..token.end as usize])),
            _ => None,
        }
    }

    /// The next token, where it is a text: what stands between its quotes.
    fn next_text(&self) -> Option<&'a [u8]>
        ensures text { option_map text_value (option_copied result) ≡ next_text (left self.now) }
        ensures utf8 { IfSome result (λ text. IsUtf8 text.now) }
    {
        let token = self.rest.first()?;
        match token.lexeme {
            Lexeme::Text => Some(&self.line[token.start as usize + 1..token.end as usize - 1]),
            _ => None,
        }
    }

    /// Takes a text, and gives its number.
    pub(crate) fn text(&mut self, alloc: Global, texts: &mut Lexicon) -> Result<u32, Stop>
        requires room { HasRoom self.old texts.old }
        ensures taken { IfOk result (λ number. ReadsText self.old self.new texts.old texts.new number) }
        ensures refused { IfErr result (Refuses self.old self.new (next_text (left self.old) ≡ None)) }
    {
        let Some(text) = self.next_text() else {
            return Err(Stop::Syntax);
        };
        self.advance();
        let number = add_value(alloc, texts, text)?;
        Ok(self.note_text(number))
    }

    /// Takes a number or a text.
    pub(crate) fn constant(&mut self, alloc: Global, texts: &mut Lexicon) -> Result<Value, Stop>
        requires room { HasRoom self.old texts.old }
        ensures taken { IfOk result (λ value. ReadsConst self.old self.new texts.old texts.new value) }
        ensures refused { IfErr result (Refuses self.old self.new (next_const (left self.old) ≡ None)) }
    {
        if self.next_text().is_some() {
            return Ok(Value::Sym(self.text(alloc, texts)?));
        }
        let number = self.number()?;
        Ok(Value::Int(self.note_number(number)))
    }

    /// The number; where there is none, that is noted, and 0 stands for it.
    pub(crate) fn note_number(&mut self, number: Option<Num>) -> Num
        ensures noted { Notes self.old self.new (is_none number) false }
        ensures value { IfSome number (λ n. result ≡ n) }
    {
        match number {
            Some(number) => number,
            None => {
                self.is_wide = true;
                Num::new(0).unwrap()
            }
        }
    }

    // The same for the number of a text that may be too long.
    fn note_text(&mut self, number: Option<u32>) -> u32
        ensures noted { Notes self.old self.new false (is_none number) }
        ensures value { IfSome number (λ n. result ≡ n) }
    {
        match number {
            Some(number) => number,
            None => {
                self.is_long = true;
                0
            }
        }
    }
}
