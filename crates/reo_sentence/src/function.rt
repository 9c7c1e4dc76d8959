//! Reading functions.
ghost use Rattle.std.specs.Prelude.{◌≡◌, ℕ, List, [], false, None, IfOk, IfErr};
ghost use Rattle.reo_grammar.specs.Token.{Const};
ghost use Rattle.reo_grammar.specs.Machine.Functions.{Start, AfterMap, WantFirst};
ghost use Rattle.reo_sentence.specs.Reading.{left, next_key, next_number, Goes, ReadsNumber, HasRoom};
ghost use Rattle.reo_sentence.specs.FunctionReading.{ReadsFunction, CompletesMap, ReadsPair, StopsFunction, MayNotEnd, is_function_key};

use crate::cursor::Cursor;
use crate::stop::Stop;
use reo_grammar::Key;
use reo_guard::Fun;
use reo_token::Symbol;
use reo_value::{Lexicon, Num, Value};
use sqlite_items::Items;
use std::alloc::Global;

impl Cursor<'_> {
    pub(crate) fn function(&mut self, alloc: Global, texts: &mut Lexicon) -> Result<Fun, Stop>
        requires room { HasRoom self.old texts.old }
        ensures reads { IfOk result (ReadsFunction self.old self.new texts.old texts.new) }
        ensures stops { IfErr result (StopsFunction Start self.old self.new) }
    {
        match self.key() {
            Key::Neg => {
                self.advance();
                Ok(Fun::Neg)
            }
            Key::Len => {
                self.advance();
                Ok(Fun::Len)
            }
            Key::Map => {
                self.advance();
                self.after_map(alloc, texts)
            }
            _ => self.calculation(),
        }
    }

    // A sum, difference or product with a number.
    fn calculation(&mut self) -> Result<Fun, Stop>
        requires { is_function_key (next_key (left self.old)) ≡ false }
        ensures reads { (texts : List (List ℕ)) → IfOk result (ReadsFunction self.old self.new texts texts) }
        ensures stops { IfErr result (StopsFunction Start self.old self.new) }
    {
        if self.sees_symbol(Symbol::Plus) {
            self.advance();
            return Ok(Fun::Add(self.operand()?));
        }
        if self.sees_symbol(Symbol::Minus) {
            self.advance();
            return Ok(Fun::Sub(self.operand()?));
        }
        if self.sees_symbol(Symbol::Star) {
            self.advance();
            return Ok(Fun::Mul(self.operand()?));
        }
        Err(Stop::Syntax)
    }

    fn operand(&mut self) -> Result<Num, Stop>
        ensures reads { (texts : List (List ℕ)) → IfOk result (ReadsNumber self.old self.new texts) }
        ensures refused { IfErr result (λ e. (e ≡ Stop.Syntax) × Goes self.old self.new [] × (next_number (left self.old) ≡ None)) }
    {
        let number = self.number()?;
        Ok(self.note_number(number))
    }

    // Behind `map`: pairs in braces.
    fn after_map(&mut self, alloc: Global, texts: &mut Lexicon) -> Result<Fun, Stop>
        requires room { HasRoom self.old texts.old }
        ensures reads { IfOk result (CompletesMap self.old self.new texts.old texts.new) }
        ensures stops { IfErr result (StopsFunction AfterMap self.old self.new) }
    {
        self.expect(Symbol::OpenBrace)?;
        let mut pairs = Items::new(alloc);
        if self.sees_symbol(Symbol::CloseBrace) {
            self.advance();
            return Ok(Fun::Map(pairs));
        }
        let first = self.pair(alloc, texts)?;
        pairs.push(first)?;
        'pairs: while self.sees_symbol(Symbol::Comma) {
            self.advance();
            let pair = self.pair(alloc, texts)?;
            pairs.push(pair)?;
        }
        self.expect(Symbol::CloseBrace)?;
        Ok(Fun::Map(pairs))
    }

    // A constant, an arrow and another constant.
    fn pair(&mut self, alloc: Global, texts: &mut Lexicon) -> Result<(Value, Value), Stop>
        requires room { HasRoom self.old texts.old }
        ensures reads { IfOk result (ReadsPair self.old self.new texts.old texts.new) }
        ensures stops { IfErr result (λ e. (pairs : List (Const × Const)) → MayNotEnd pairs (left self.old) → StopsFunction (WantFirst pairs) self.old self.new e) }
    {
        let first = self.constant(alloc, texts)?;
        self.expect(Symbol::Arrow)?;
        let second = self.constant(alloc, texts)?;
        Ok((first, second))
    }
}
