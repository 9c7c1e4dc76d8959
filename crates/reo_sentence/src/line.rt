//! One line by its tokens.
ghost use Rattle.std.specs.Prelude.{◌≡◌, ◌≢◌, ◌+◌, ◌<◌, ◌≤◌, ◌^◌, [], length, All, IsUtf8, IfOk, IfErr, OnOk};
ghost use Rattle.reo_token.specs.Cut.{cut, IsWithin};
ghost use Rattle.reo_token.specs.declared.token.End.TheVariants.{Over as IsOver};
ghost use Rattle.reo_sentence.specs.Said.{AreNamesIn};
ghost use Rattle.reo_sentence.specs.LineReading.{place_of};
ghost use Rattle.reo_sentence.specs.ReadLine.{Says, IsRefusedLine, column_at, end_of};

use crate::cursor::Cursor;
use crate::said::Sentence;
use crate::sentence::Place;
use crate::stop::Stop;
use reo_token::Token;
use reo_value::Lexicon;
use std::alloc::Global;

/// Why a line is refused, whatever stands before it.
#[derive(Clone, Copy, Debug, PartialEq, Eq)]
pub enum LineRefusal {
    /// Nothing goes on with the token at this column, or the line ends too early, before this column.
    Syntax(u32),
    /// A number is out of its range.
    NumberRange,
    /// A text has more than 255 bytes.
    TextLong,
    NoMemory,
}

/// What a line with these tokens says in its place. Texts that are new are added at the end, one a token at most.
pub fn read_line(
    alloc: Global,
    line: &[u8],
    tokens: &[Token],
    place: Place,
    texts: &mut Lexicon,
) -> Result<Sentence, LineRefusal>
    requires short { length line.now < 2 ^ 31 }
    requires within { All (IsWithin (length line.now)) tokens.now }
    requires some { tokens.now ≢ [] }
    requires cut { (tokens.now, IsOver) ≡ cut 512 0 line.now }
    requires utf8 { IsUtf8 line.now }
    requires room { length texts.old + length tokens.now ≤ 16777216 }
    ensures says { IfOk result (Says (place_of place) line.now tokens.now texts.old texts.new) }
    ensures names { IfOk result (AreNamesIn line.now) }
    ensures few { OnOk result (length texts.new ≤ length texts.old + length tokens.now) }
    ensures refused { IfErr result (IsRefusedLine (place_of place) line.now tokens.now) }
{
    let mut cursor = Cursor {
        line,
        rest: tokens,
        is_wide: false,
        is_long: false,
    };
    match cursor.sentence(alloc, texts, place) {
        Ok(sentence) => {
            if cursor.is_wide {
                return Err(LineRefusal::NumberRange);
            }
            if cursor.is_long {
                return Err(LineRefusal::TextLong);
            }
            Ok(sentence)
        }
        Err(Stop::Syntax) => Err(LineRefusal::Syntax(column(line, tokens, cursor.rest))),
        Err(Stop::NoMemory) => Err(LineRefusal::NoMemory),
    }
}

// The column of the first of the rest, or that behind the last token.
fn column(line: &[u8], tokens: &[Token], rest: &[Token]) -> u32
    requires short { length line.now < 2 ^ 31 }
    requires within { All (IsWithin (length line.now)) tokens.now }
    requires rest { All (IsWithin (length line.now)) rest.now }
    ensures { result ≡ column_at tokens.now rest.now }
{
    let _line = line;
    match rest.first() {
        Some(token) => token.start + 1,
        None => end_of(line, tokens) + 1,
    }
}

fn end_of(line: &[u8], tokens: &[Token]) -> u32
    requires short { length line.now < 2 ^ 31 }
    requires within { All (IsWithin (length line.now)) tokens.now }
    ensures end { result ≡ end_of tokens.now }
    ensures short { result < 2 ^ 31 }
{
    let _line = line;
    match tokens.last() {
        Some(token) => token.end,
        None => 0,
    }
}
