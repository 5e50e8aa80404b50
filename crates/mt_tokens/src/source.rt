//! What a source is by its path, and what can be wrong with one.
use crate::MAX_TEXT_BYTES;
use thiserror::Error;

/// The most bytes of a source: as many as a text may have that tokens are made of.
pub const MAX_SOURCE_BYTES: usize = MAX_TEXT_BYTES;

/// The most distinct dependencies of a source.
pub const MAX_DEPENDENCIES: usize = 4096;

/// How a source names a dependency.
#[derive(Clone, Copy, Debug, PartialEq, Eq)]
pub enum DepKind {
    /// By a call of `require`.
    Require,
    /// By an `import` or `export` statement.
    Import,
    /// By a call of `import`.
    ImportCall,
}

/// What a source is by the extension of its path.
#[derive(Clone, Copy, Debug, PartialEq, Eq)]
pub enum PathKind {
    /// A JavaScript file: every source whose extension isn't json.
    Script,
    /// A JSON file.
    Json,
}

/// What breaks the lexical grammar.
#[derive(Clone, Copy, Debug, PartialEq, Eq, Error)]
pub enum SyntaxFault {
    #[error("unclosed string")]
    UnclosedString,
    #[error("unclosed comment")]
    UnclosedComment,
    #[error("bad character")]
    BadCharacter,
    #[error("unbalanced bracket")]
    UnbalancedBracket,
    #[error("unclosed template")]
    UnclosedTemplate,
    #[error("unclosed regular expression")]
    UnclosedRegex,
    #[error("import form")]
    ImportForm,
    #[error("export form")]
    ExportForm,
}

/// Why a source is refused. Places are byte offsets from 0.
#[derive(Clone, Copy, Debug, Error)]
pub enum SourceFault {
    /// The place of the first byte that no well-formed text continues.
    #[error("not UTF-8 at {place}")]
    NotUtf8 { place: u32 },
    #[error("{why} at {place}")]
    Syntax { place: u32, why: SyntaxFault },
    /// A JSON source that isn't JSON.
    #[error("not JSON")]
    Json,
    /// More than `MAX_DEPENDENCIES` distinct dependencies.
    #[error("more than 4096 dependencies")]
    TooManyDeps,
    #[error("out of memory")]
    NoMemory,
}
