//! Reading guards.
ghost use Rattle.std.specs.Prelude.{◌≡◌, ◌≢◌, ◌≤◌, ℕ, ℤ, List, false, is_none, IfOk, IfErr, OnOk, IfSome};
ghost use Rattle.std.specs.Option.{option_and_then};
ghost use Rattle.reo_grammar.specs.Machine.Guards.{cmp_of as spec_cmp_of, AfterX, AfterMod, AfterIs, AfterLen, AfterStarts};
ghost use Rattle.reo_sentence.specs.Limits.{in_range, natural_in, small_remainder};
ghost use Rattle.reo_sentence.specs.Reading.{left, next_key, next_symbol, Notes, HasRoom};
ghost use Rattle.reo_sentence.specs.GuardReading.{Completes, StopsIn, ReadsGuard, ReadsTerm, ReadsFactor, StopsGuard, StopsTerm, StopsFactor, is_joint, is_factor_key};

use crate::cursor::Cursor;
use crate::stop::Stop;
use reo_grammar::Key;
use reo_guard::{Cmp, Guard};
use reo_token::Symbol;
use reo_value::{Lexicon, Num};
use sqlite_items::Boxed;
use std::alloc::Global;

const MOST_DIVISOR: u32 = 1_000_000;

const LONGEST_TEXT: u32 = 255;

impl Cursor<'_> {
    /// A guard: terms with `or` between them.
    #[cycle(guard)]
    pub(crate) fn guard(&mut self, alloc: Global, texts: &mut Lexicon) -> Result<Guard, Stop>
        requires room { HasRoom self.old texts.old }
        ensures reads { IfOk result (ReadsGuard self.old self.new texts.old texts.new) }
        ensures whole { OnOk result (is_joint (next_key (left self.new)) ≡ false) }
        ensures stops { IfErr result (StopsGuard self.old self.new) }
    {
        let mut left = self.term(alloc, texts)?;
        'terms: while self.sees(Key::Or) {
            self.advance();
            let right = self.term(alloc, texts)?;
            left = Guard::Or(Boxed::new(alloc, left)?, Boxed::new(alloc, right)?);
        }
        Ok(left)
    }

    // Factors with `and` between them.
    #[cycle(guard)]
    fn term(&mut self, alloc: Global, texts: &mut Lexicon) -> Result<Guard, Stop>
        requires room { HasRoom self.old texts.old }
        ensures reads { IfOk result (ReadsTerm self.old self.new texts.old texts.new) }
        ensures whole { OnOk result (next_key (left self.new) ≢ Key.And) }
        ensures stops { IfErr result (StopsTerm self.old self.new) }
    {
        let mut left = self.factor(alloc, texts)?;
        'factors: while self.sees(Key::And) {
            self.advance();
            let right = self.factor(alloc, texts)?;
            left = Guard::And(Boxed::new(alloc, left)?, Boxed::new(alloc, right)?);
        }
        Ok(left)
    }

    #[cycle(guard)]
    fn factor(&mut self, alloc: Global, texts: &mut Lexicon) -> Result<Guard, Stop>
        requires room { HasRoom self.old texts.old }
        ensures reads { IfOk result (ReadsFactor self.old self.new texts.old texts.new) }
        ensures stops { IfErr result (StopsFactor self.old self.new) }
    {
        match self.key() {
            Key::Not => {
                self.advance();
                let inner = self.factor(alloc, texts)?;
                Ok(Guard::Not(Boxed::new(alloc, inner)?))
            }
            Key::X => {
                self.advance();
                self.after_x(alloc, texts)
            }
            Key::Is => {
                self.advance();
                self.after_is()
            }
            Key::Len => {
                self.advance();
                self.after_len()
            }
            Key::Starts => {
                self.advance();
                self.after_starts(alloc, texts)
            }
            _ => self.bracketed(alloc, texts),
        }
    }

    // A guard in brackets.
    #[cycle(guard)]
    fn bracketed(&mut self, alloc: Global, texts: &mut Lexicon) -> Result<Guard, Stop>
        requires room { HasRoom self.old texts.old }
        requires begins { is_factor_key (next_key (left self.old)) ≡ false }
        ensures reads { IfOk result (ReadsFactor self.old self.new texts.old texts.new) }
        ensures stops { IfErr result (StopsFactor self.old self.new) }
    {
        self.expect(Symbol::Open)?;
        let guard = self.guard(alloc, texts)?;
        self.expect(Symbol::Close)?;
        Ok(guard)
    }

    // Behind `x`: a comparison, or `mod`.
    fn after_x(&mut self, alloc: Global, texts: &mut Lexicon) -> Result<Guard, Stop>
        requires room { HasRoom self.old texts.old }
        ensures reads { IfOk result (Completes AfterX self.old self.new texts.old texts.new) }
        ensures stops { IfErr result (StopsIn AfterX self.old self.new) }
    {
        if self.sees(Key::Mod) {
            self.advance();
            return self.after_mod();
        }
        let Some(cmp) = self.comparison() else {
            return Err(Stop::Syntax);
        };
        self.advance();
        let constant = self.constant(alloc, texts)?;
        Ok(Guard::Compare(cmp, constant))
    }

    // How the next symbol compares, where it does.
    fn comparison(&self) -> Option<Cmp>
        ensures { result ≡ option_and_then spec_cmp_of (next_symbol (left self.now)) }
    {
        cmp_of(self.symbol()?)
    }

    fn after_mod(&mut self) -> Result<Guard, Stop>
        ensures reads { (texts : List (List ℕ)) → IfOk result (Completes AfterMod self.old self.new texts texts) }
        ensures stops { IfErr result (StopsIn AfterMod self.old self.new) }
    {
        let divisor = self.number()?;
        self.expect(Symbol::Equal)?;
        let remainder = self.number()?;
        Ok(self.note_remainder(small_remainder(divisor, remainder)))
    }

    // The guard of this divisor and remainder; where there are none, that is noted.
    fn note_remainder(&mut self, parts: Option<(u32, u32)>) -> Guard
        ensures noted { Notes self.old self.new (is_none parts) false }
        ensures value { IfSome parts (λ p. result ≡ Guard.Mod p.0 p.1) }
    {
        match parts {
            Some((divisor, remainder)) => Guard::Mod(divisor, remainder),
            None => {
                self.is_wide = true;
                Guard::Mod(0, 0)
            }
        }
    }

    fn after_is(&mut self) -> Result<Guard, Stop>
        ensures reads { (texts : List (List ℕ)) → IfOk result (Completes AfterIs self.old self.new texts texts) }
        ensures stops { IfErr result (StopsIn AfterIs self.old self.new) }
    {
        match self.key() {
            Key::Int => {
                self.advance();
                Ok(Guard::IsInt)
            }
            Key::Text => {
                self.advance();
                Ok(Guard::IsText)
            }
            _ => Err(Stop::Syntax),
        }
    }

    fn after_len(&mut self) -> Result<Guard, Stop>
        ensures reads { (texts : List (List ℕ)) → IfOk result (Completes AfterLen self.old self.new texts texts) }
        ensures stops { IfErr result (StopsIn AfterLen self.old self.new) }
    {
        self.expect(Symbol::LessOrEqual)?;
        let most = self.number()?;
        Ok(self.note_most(natural(most, 0, LONGEST_TEXT)))
    }

    // The guard of this length; where there is none, that is noted.
    fn note_most(&mut self, most: Option<u32>) -> Guard
        ensures noted { Notes self.old self.new (is_none most) false }
        ensures value { IfSome most (λ n. result ≡ Guard.LenAtMost n) }
    {
        match most {
            Some(most) => Guard::LenAtMost(most),
            None => {
                self.is_wide = true;
                Guard::LenAtMost(0)
            }
        }
    }

    fn after_starts(&mut self, alloc: Global, texts: &mut Lexicon) -> Result<Guard, Stop>
        requires room { HasRoom self.old texts.old }
        ensures reads { IfOk result (Completes AfterStarts self.old self.new texts.old texts.new) }
        ensures stops { IfErr result (StopsIn AfterStarts self.old self.new) }
    {
        let front = self.text(alloc, texts)?;
        Ok(Guard::Starts(front))
    }
}

fn cmp_of(symbol: Symbol) -> Option<Cmp>
    ensures { result ≡ spec_cmp_of symbol }
{
    match symbol {
        Symbol::Equal => Some(Cmp::Eq),
        Symbol::NotEqual => Some(Cmp::Ne),
        Symbol::Less => Some(Cmp::Lt),
        Symbol::LessOrEqual => Some(Cmp::Le),
        Symbol::Greater => Some(Cmp::Gt),
        Symbol::GreaterOrEqual => Some(Cmp::Ge),
        _ => None,
    }
}

// A divisor with a remainder by it, where both are in their ranges.
fn small_remainder(divisor: Option<Num>, remainder: Option<Num>) -> Option<(u32, u32)>
    ensures { (d r : ℤ) → divisor ≡ in_range d → remainder ≡ in_range r → result ≡ small_remainder d r }
{
    let divisor = natural(divisor, 1, MOST_DIVISOR)?;
    let remainder = natural(remainder, 0, divisor - 1)?;
    Some((divisor, remainder))
}

// The number, where it is between these.
fn natural(number: Option<Num>, least: u32, most: u32) -> Option<u32>
    ensures exact { (z : ℤ) → number ≡ in_range z → result ≡ natural_in least most z }
    ensures within { IfSome result (λ n. least ≤ n) }
{
    let integer = number?.get();
    if integer < i64::from(least) || integer > i64::from(most) {
        return None;
    }
    Some(integer as u32)
}
