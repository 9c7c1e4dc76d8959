//! What a line is cut into.

/// A symbol; a longer one goes before a shorter one.
#[derive(Clone, Copy, Debug, PartialEq, Eq)]
pub enum Symbol {
    /// `->`
    Arrow,
    /// `<=`
    LessOrEqual,
    /// `>=`
    GreaterOrEqual,
    /// `!=`
    NotEqual,
    /// `<`
    Less,
    /// `>`
    Greater,
    /// `=`
    Equal,
    /// `+`
    Plus,
    /// `-`
    Minus,
    /// `*`
    Star,
    /// `(`
    Open,
    /// `)`
    Close,
    /// `{`
    OpenBrace,
    /// `}`
    CloseBrace,
    /// `,`
    Comma,
}

/// What kind of token stands at a place.
#[derive(Clone, Copy, Debug, PartialEq, Eq)]
pub enum Lexeme {
    /// A letter or `_`, then letters, digits and `_`.
    Word,
    /// A decimal without leading zeros, behind a minus sign or not.
    Number,
    /// A text in quotes.
    Text,
    Sign(Symbol),
}

/// A token, and the bytes of its line that it is.
#[derive(Clone, Copy, Debug, PartialEq, Eq)]
pub struct Token {
    pub lexeme: Lexeme,
    /// Where its first byte stands, from 0.
    pub start: u32,
    /// Where its last byte stands, and one.
    pub end: u32,
}

/// How the tokens of a line end.
#[derive(Clone, Copy, Debug, PartialEq, Eq)]
pub enum End {
    /// The line is over, or a comment goes on to its end.
    Over,
    /// A bad token begins here, counted from 0.
    Bad(u32),
    /// One token more begins than a line may have.
    Large,
}
