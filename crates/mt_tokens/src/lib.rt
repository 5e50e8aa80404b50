//! The tokens of a text, and the definitions of its dependencies and of what it becomes.
#![tactic(auto)]

mod brackets;
mod comments;
mod dep;
mod dep_list;
mod depths;
mod forms;
mod front;
mod marks;
mod punctuators;
mod regexes;
mod replacing;
mod scanner;
mod source;
mod strings;
mod templates;
mod token;
mod token_list;
mod tokenizer;
mod uses;
mod words;

pub use dep::{Dep, DepFault, Mark, Use};
pub use dep_list::DepList;
pub use depths::{is_closing_token, is_opening_token};
pub use forms::{Bound, Cover, Form, Found, Head, Item, Named};
pub use marks::put_marks;
pub use mt_containers::{Bytes, Shared, Text, TextList, TextMap};
pub use source::{DepKind, MAX_DEPENDENCIES, MAX_SOURCE_BYTES, PathKind, SourceFault, SyntaxFault};
pub use strings::cook;
pub use token::{Token, TokenFault, TokenKind};
pub use token_list::TokenList;
pub use tokenizer::{MAX_TEXT_BYTES, law_of_tokens, tokens};
pub use uses::put_use;
pub use words::{
    is_mark_token, is_plain_here, is_plain_word, is_seen_kind, is_word_token, token_bytes,
    token_text,
};
