//! What the tokens read so far tell of the next one: the brackets that are open, and whether an operand comes.
ghost use Rattle.std.specs.Prelude.{◌≡◌, ◌⊎◌, IfOk, IfErr, OnOk, codes, ℕ, ◌∷◌, ◌++◌, [], List, true, false, map};
ghost use Rattle.std.specs.Option.{option_map_or};
ghost use Rattle.mt_tokens.specs.Brackets.{Unclosed, innermost_place, is_misfit, unclosed};
ghost use Rattle.mt_tokens.specs.Goals.{block_marks, block_words, head_words, is_block, is_head, is_operand_after, kind_goal, operand_words, operator_marks};
ghost use Rattle.mt_tokens.specs.Scanners.{Fits, Follows, IsClosed, IsRefused, Stands, kept, with_opener};
ghost use Rattle.mt_tokens.specs.Tokens.{before_next, looking_back, open_in};
ghost use Rattle.mt_tokens.specs.Words.{bytes_of, is_one_of, is_word};
ghost use Rattle.mt_tokens.specs.declared.token.Token.{Token};

use crate::brackets::{Opener, Openers, closed_byte, opened_byte};
use crate::front::Before;
use crate::words::{is_plain_here, is_seen_kind, is_word_token, token_bytes};
use crate::{Token, TokenFault, TokenKind};
use mt_chars::byte_at;
use std::alloc::Global;

/// What is known after the tokens read so far.
#[derive(Drop)]
pub(crate) struct Scanner {
    /// The openers that no closer has met.
    pub(crate) openers: Openers,
    /// The last token that is neither blanks nor a comment.
    pub(crate) last: Option<Token>,
    /// The one before it.
    pub(crate) earlier: Option<Token>,
    /// Whether an operand comes next.
    pub(crate) operand: bool,
}

/// Whether an operand comes after this word.
#[tactic(auto, unfolding(crate::specs::Goals::operand_words))]
fn is_operand_word(word: &[u8]) -> bool
    ensures { result ≡ is_one_of operand_words word.now }
{
    word == b"return".as_slice()
        || word == b"typeof".as_slice()
        || word == b"instanceof".as_slice()
        || word == b"in".as_slice()
        || word == b"of".as_slice()
        || word == b"new".as_slice()
        || word == b"delete".as_slice()
        || word == b"void".as_slice()
        || word == b"throw".as_slice()
        || word == b"case".as_slice()
        || word == b"do".as_slice()
        || word == b"else".as_slice()
        || word == b"yield".as_slice()
        || word == b"await".as_slice()
        || word == b"extends".as_slice()
        || word == b"default".as_slice()
}

/// Whether a statement comes after the parentheses of this word.
#[tactic(auto, unfolding(crate::specs::Goals::head_words))]
fn is_head_word(word: &[u8]) -> bool
    ensures { result ≡ is_one_of head_words word.now }
{
    matches!(word, b"if" | b"while" | b"for" | b"with")
}

/// Whether a `{` after this word begins a block, although an operand may come there.
#[tactic(auto, unfolding(crate::specs::Goals::block_words))]
fn is_block_word(word: &[u8]) -> bool
    ensures { result ≡ is_one_of block_words word.now }
{
    matches!(word, b"else" | b"do")
}

/// Whether a `{` after this punctuator begins a block.
#[tactic(auto, unfolding(crate::specs::Goals::block_marks))]
fn is_block_mark(mark: &[u8]) -> bool
    ensures { result ≡ is_one_of block_marks mark.now }
{
    matches!(mark, b";" | b"{" | b"}" | b")" | b"]" | b"=>")
}

/// Whether an operator comes after this punctuator.
#[tactic(auto, unfolding(crate::specs::Goals::operator_marks))]
fn is_operator_mark(mark: &[u8]) -> bool
    ensures { result ≡ is_one_of operator_marks mark.now }
{
    matches!(mark, b"]" | b"++" | b"--")
}

fn is_for(bytes: &[u8], token: Option<Token>) -> bool
    ensures { result ≡ option_map_or (is_word bytes.now (codes "for")) token false }
{
    match token {
        Some(token) => is_word_token(bytes, b"for", token),
        None => false,
    }
}

/// Whether parentheses after these two tokens are the head of a statement.
fn is_head_here(bytes: &[u8], last: Option<Token>, earlier: Option<Token>) -> bool
    ensures { result ≡ is_head bytes.now last earlier }
{
    let Some(token) = last else {
        return false;
    };
    if !matches!(token.kind, TokenKind::Ident) {
        return false;
    }
    let word = token_bytes(bytes, token);
    (is_plain_here(bytes, earlier) && is_head_word(word))
        || (word == b"await".as_slice() && is_for(bytes, earlier))
}

/// Whether a `{` after these two tokens begins a block.
fn is_block_here(bytes: &[u8], last: Option<Token>, earlier: Option<Token>) -> bool
    ensures { result ≡ is_block bytes.now last earlier }
{
    let Some(token) = last else {
        return true;
    };
    let part = token_bytes(bytes, token);
    match token.kind {
        TokenKind::Ident => {
            !(is_plain_here(bytes, earlier) && is_operand_word(part)) || is_block_word(part)
        }
        TokenKind::Punct => is_block_mark(part),
        TokenKind::Head | TokenKind::Middle => false,
        _ => true,
    }
}

/// Whether an operand comes after what `closer` ends, where these two tokens stand before its opener.
fn is_operand_after_closer(
    bytes: &[u8],
    closer: u8,
    last: Option<Token>,
    earlier: Option<Token>,
) -> bool
    ensures { result ≡ is_operand_after bytes.now closer last earlier }
{
    match closer {
        b')' => is_head_here(bytes, last, earlier),
        b'}' => is_block_here(bytes, last, earlier),
        _ => false,
    }
}

/// Whether an operand comes after a token: `inner` tells it of the opener that the token closes.
fn is_operand_after_token(
    bytes: &[u8],
    token: Token,
    closed: u8,
    last: Option<Token>,
    inner: bool,
) -> bool
    ensures { result ≡ kind_goal bytes.now token.kind (bytes_of bytes.now token) closed last inner }
{
    let part = token_bytes(bytes, token);
    match token.kind {
        TokenKind::Ident => is_plain_here(bytes, last) && is_operand_word(part),
        TokenKind::Punct => {
            if closed == b')' || closed == b'}' {
                inner
            } else {
                !is_operator_mark(part)
            }
        }
        TokenKind::Head | TokenKind::Middle => true,
        _ => false,
    }
}

impl Scanner {
    /// Nothing is read yet. Takes no memory.
    pub(crate) fn new(alloc: Global) -> Scanner
        ensures start { (text : List ℕ) → Follows text [] result }
    {
        Scanner {
            openers: Openers::new(alloc),
            last: None,
            earlier: None,
            operand: true,
        }
    }

    /// What is known of the next token.
    pub(crate) fn before(&self) -> Before
        ensures { (text : List ℕ) (found : List Token) → Follows text found self.now → result ≡ before_next text found }
    {
        Before {
            operand: self.operand,
            in_template: self.openers.is_in_template(),
        }
    }

    /// The place of the innermost opener.
    pub(crate) fn innermost(&self) -> Option<u32>
        ensures { (text : List ℕ) (found : List Token) → Follows text found self.now → result ≡ innermost_place (open_in text found) }
    {
        self.openers.innermost()
    }

    /// Closes the innermost opener, where a token closes one: whether an operand comes after it.
    fn close(&mut self, closed: u8, place: u32) -> Result<bool, TokenFault>
        ensures ok { IfOk result (λ inner. (text : List ℕ) (openers : List Unclosed) → self.old.openers ≡ map (kept text) openers → IsClosed closed text openers self.new.openers inner) }
        ensures err { IfErr result (λ e. (text : List ℕ) (openers : List Unclosed) → self.old.openers ≡ map (kept text) openers → (is_misfit closed openers ≡ true) × (e ≡ TokenFault.Unbalanced place)) }
        ensures last { self.new.last ≡ self.old.last }
        ensures earlier { self.new.earlier ≡ self.old.earlier }
    {
        if closed == 0 {
            return Ok(false);
        }
        match self.openers.pop() {
            Some(opener) if opener.closer == closed => Ok(opener.operand),
            _ => Err(TokenFault::Unbalanced { place }),
        }
    }

    /// Keeps what a token opens, if it opens something.
    fn open(&mut self, bytes: &[u8], opened: u8, place: u32) -> Result<(), TokenFault>
        ensures ok { OnOk result (self.new.openers ≡ with_opener (record { place = place; closer = opened; operand = is_operand_after bytes.now opened self.old.last self.old.earlier }) self.old.openers) }
        ensures err { IfErr result (λ e. e ≡ TokenFault.NoMemory) }
        ensures last { self.new.last ≡ self.old.last }
        ensures earlier { self.new.earlier ≡ self.old.earlier }
    {
        if opened == 0 {
            return Ok(());
        }
        let operand = is_operand_after_closer(bytes, opened, self.last, self.earlier);
        self.openers.push(Opener {
            place,
            closer: opened,
            operand,
        })
    }

    /// Reads a token that is neither blanks nor a comment.
    fn read_seen(&mut self, bytes: &[u8], token: Token) -> Result<(), TokenFault>
        ensures ok { OnOk result ((back : List Token) → Stands bytes.now back self.old → Fits bytes.now token (unclosed bytes.now 0 back) × Stands bytes.now (token ∷ back) self.new) }
        ensures err { IfErr result (λ e. (e ≡ TokenFault.NoMemory) ⊎ ((back : List Token) → Stands bytes.now back self.old → IsRefused bytes.now token (unclosed bytes.now 0 back) e)) }
    {
        let first = byte_at(bytes, token.start as usize);
        let closed = closed_byte(token.kind, first);
        let opened = opened_byte(token.kind, first);
        let inner = match self.close(closed, token.start) {
            Ok(inner) => inner,
            Err(fault) => return Err(fault),
        };
        if let Err(fault) = self.open(bytes, opened, token.start) {
            return Err(fault);
        }
        self.operand = is_operand_after_token(bytes, token, closed, self.last, inner);
        self.earlier = self.last;
        self.last = Some(token);
        Ok(())
    }

    /// Reads a token: a closer has to fit the innermost opener.
    pub(crate) fn read(&mut self, bytes: &[u8], token: Token) -> Result<(), TokenFault>
        ensures ok { OnOk result ((found : List Token) → Follows bytes.now found self.old → Fits bytes.now token (open_in bytes.now found) × Follows bytes.now (found ++ token ∷ []) self.new) }
        ensures err { IfErr result (λ e. (e ≡ TokenFault.NoMemory) ⊎ ((found : List Token) → Follows bytes.now found self.old → IsRefused bytes.now token (open_in bytes.now found) e)) }
    {
        if is_seen_kind(token.kind) {
            return self.read_seen(bytes, token);
        }
        Ok(())
    }
}
