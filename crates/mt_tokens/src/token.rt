//! What a token is, and why a text has none.
use thiserror::Error;

/// The kind of a token.
#[derive(Clone, Copy, Debug, PartialEq, Eq)]
pub enum TokenKind {
    /// Blanks and line ends.
    Space,
    /// A comment, up to before its line's end or through its `*/`.
    Comment,
    /// A name or a word of the language.
    Ident,
    /// A private name, with its `#`.
    Private,
    /// A number, with the letters after it.
    Number,
    /// A string in quotes.
    Str,
    /// A template in which no `${` stands.
    Whole,
    /// The first piece of a template, through its first `${`.
    Head,
    /// A piece from a `}` through the next `${` of the same template.
    Middle,
    /// The last piece, from a `}` through the backtick.
    Tail,
    /// A regular expression, with the letters after it.
    Regex,
    /// An operator, a bracket or a mark.
    Punct,
}

/// A token: its kind, and its place in the text, in bytes counted from 0.
#[derive(Clone, Copy, Debug)]
pub struct Token {
    /// What it is.
    pub kind: TokenKind,
    /// The place of its first byte.
    pub start: u32,
    /// The place after its last byte.
    pub end: u32,
}

/// Why a text isn't a list of tokens. Places are in bytes counted from 0.
#[derive(Clone, Copy, Debug, PartialEq, Eq, Error)]
pub enum TokenFault {
    /// A string whose line or text ends before it does.
    #[error("the string at {place} is not closed")]
    UnclosedString { place: u32 },
    /// A comment that begins with `/*`, and that no `*/` ends.
    #[error("the comment at {place} is not closed")]
    UnclosedComment { place: u32 },
    /// A piece of a template that no backtick or `${` ends.
    #[error("the template at {place} is not closed")]
    UnclosedTemplate { place: u32 },
    /// A regular expression whose line or text ends before it does.
    #[error("the regular expression at {place} is not closed")]
    UnclosedRegex { place: u32 },
    /// A byte that no token begins with.
    #[error("the byte at {place} begins no token")]
    BadByte { place: u32 },
    /// A closer that doesn't fit the innermost open bracket, or a bracket that is open at the end.
    #[error("the bracket at {place} has no partner")]
    Unbalanced { place: u32 },
    /// Out of memory.
    #[error("out of memory")]
    NoMemory,
}
