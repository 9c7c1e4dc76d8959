//! Numbered lists of texts.
ghost use Rattle.std.specs.Prelude.{◌≡◌, ◌≢◌, ℕ, ◌<◌, ◌≤◌, ◌^◌, ◌↔◌, length, [], All, None, Some, slice_get, option_copied, IsTrue, IsSome, IsErrOf, IfOk, IfSome, IfNone, OnOk, OnErr};
ghost use Rattle.reo_value.specs.Lexicon.{text_at, place_of, added, NoRepeats};

use indexmap::IndexSet;
use std::alloc::Global;
use std::marker::Model;
use thiserror::Error;

const LONGEST_TEXT: usize = 255;

const MOST_TEXTS: usize = 1 << 24;

/// Texts by number, in the order in which they were added. No text has two numbers.
#[derive(Drop)]
pub struct Lexicon {
    texts: IndexSet<String>,
}

impl Model for Lexicon {
    ghost use Rattle.std.specs.Prelude.{ℕ, List, map};
    ghost use Rattle.std.specs.String.{string_bytes};
    ghost use Rattle.reo_value.specs.Lexicon.{IsLexicon};

    ghost Value = { List (List ℕ) };

    ghost view = { λ l. map string_bytes l.texts.keys };

    ghost invariant = { λ l. IsLexicon (map string_bytes l.texts.keys) };
}

/// Why a text was not added.
#[derive(Clone, Copy, Debug, PartialEq, Eq, Error)]
pub enum LexRefusal {
    #[error("a text has more than 255 bytes")]
    TooLong,
    #[error("there are 16777216 texts already")]
    Full,
    #[error("out of memory")]
    NoMemory,
}

impl Lexicon {
    /// A list of no texts. It allocates nothing.
    pub fn new(alloc: Global) -> Lexicon
        ensures empty { result ≡ [] }
    {
        Lexicon {
            texts: IndexSet::new(alloc),
        }
    }

    /// The number of a text, which is added at the end where it is not there.
    pub fn add(&mut self, alloc: Global, text: &str) -> Result<u32, LexRefusal>
        ensures number { IfOk result (λ n. slice_get self.new n ≡ Some text.now) }
        ensures place { IfOk result (λ n. place_of self.new text.now ≡ Some n) }
        ensures list { OnOk result (self.new ≡ added self.old text.now) }
        ensures kept { OnErr result (self.new ≡ self.old) }
        ensures too_long { IsErrOf result LexRefusal.TooLong ↔ (255 < length text.now) }
        ensures full { IsErrOf result LexRefusal.Full ↔ ((length text.now ≤ 255) × (place_of self.old text.now ≡ None) × (length self.old ≡ 2 ^ 24)) }
        ensures only_new { IsErrOf result LexRefusal.NoMemory → place_of self.old text.now ≡ None }
    {
        if text.len() > LONGEST_TEXT {
            return Err(LexRefusal::TooLong);
        }
        if let Some(number) = self.find(text) {
            return Ok(number);
        }
        let number = self.texts.len();
        if number == MOST_TEXTS {
            return Err(LexRefusal::Full);
        }
        let owned = String::from_str(alloc, text).map_err(|_| LexRefusal::NoMemory)?;
        self.texts.insert(owned).map_err(|_| LexRefusal::NoMemory)?;
        Ok(number as u32)
    }

    /// The text with this number.
    pub fn text(&self, number: u32) -> Option<&str>
        ensures text { option_copied result ≡ slice_get self.now number }
        ensures found { IsSome result ↔ (number < length self.now) }
        ensures short { IfSome result (λ t. length t.now ≤ 255) }
    {
        let text = self.texts.get_index(number as usize)?;
        Some(text.as_str())
    }

    /// The text with this number, or one of no bytes where there is none.
    pub fn text_or_empty(&self, number: u32) -> &str
        ensures text { result.now ≡ text_at self.now number }
        ensures short { length result.now ≤ 255 }
    {
        match self.text(number) {
            Some(text) => text,
            None => "",
        }
    }

    /// The number of a text.
    pub fn find(&self, text: &str) -> Option<u32>
        ensures place { result ≡ place_of self.now text.now }
        ensures found { IfSome result (λ n. slice_get self.now n ≡ Some text.now) }
        ensures absent { IfNone result ((n : ℕ) → slice_get self.now n ≢ Some text.now) }
    {
        let number = self.texts.get_index_of(text)?;
        Some(number as u32)
    }

    /// How many texts there are.
    pub fn len(&self) -> u32
        ensures len { result ≡ length self.now }
        ensures few { length self.now ≤ 2 ^ 24 }
        ensures short { All (λ text. length text ≤ 255) self.now }
        ensures distinct { NoRepeats self.now }
    {
        self.texts.len() as u32
    }

    pub fn is_empty(&self) -> bool
        ensures { IsTrue result ↔ (self.now ≡ []) }
    {
        self.texts.is_empty()
    }
}
