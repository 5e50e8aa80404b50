//! The brackets that are open after the tokens read so far.
ghost use Rattle.std.specs.Prelude.{◌≡◌, [], ◌∷◌, OnOk, IfErr, Some, None};
ghost use Rattle.mt_tokens.specs.Brackets.{opened_by, closed_by};
ghost use Rattle.mt_tokens.specs.Openers.{is_kept_in_template, kept_place};
ghost use Rattle.mt_tokens.specs.declared.brackets.Opener.{Opener};

use crate::{TokenFault, TokenKind};
use std::alloc::Global;
use std::marker::Model;

/// An opener that no closer has met.
#[derive(Clone, Copy, Debug)]
pub(crate) struct Opener {
    /// Its place in the text.
    pub place: u32,
    /// The byte that closes it: a backtick for the `${` of a template.
    pub closer: u8,
    /// Whether an operand comes after it, once it is closed.
    pub operand: bool,
}

/// The unclosed openers. Contracts see the innermost first, which is the last in memory.
#[derive(Drop)]
pub(crate) struct Openers {
    items: Vec<Opener>,
}

impl Model for Openers {
    ghost use Rattle.std.specs.Prelude.{List, reverse};
    ghost use Rattle.mt_tokens.specs.declared.brackets.Opener.{Opener};

    ghost Value = { List Opener };

    ghost view = { λ o. reverse o.items.items };
}

/// What closes that which a token of this kind and first byte opens, and 0 where it opens nothing.
pub(crate) fn opened_byte(kind: TokenKind, b: u8) -> u8
    ensures { result ≡ opened_by kind b }
{
    match kind {
        TokenKind::Punct => match b {
            b'(' => b')',
            b'[' => b']',
            b'{' => b'}',
            _ => 0,
        },
        TokenKind::Head | TokenKind::Middle => b'`',
        _ => 0,
    }
}

/// What a token of this kind and first byte closes, and 0 where it closes nothing.
pub(crate) fn closed_byte(kind: TokenKind, b: u8) -> u8
    ensures { result ≡ closed_by kind b }
{
    match kind {
        TokenKind::Punct => match b {
            b')' | b']' | b'}' => b,
            _ => 0,
        },
        TokenKind::Middle | TokenKind::Tail => b'`',
        _ => 0,
    }
}

impl Openers {
    /// No openers. Takes no memory.
    pub(crate) fn new(alloc: Global) -> Openers
        ensures empty { result ≡ [] }
    {
        Openers {
            items: Vec::new(alloc),
        }
    }

    /// Keeps one more opener, which is then the innermost.
    pub(crate) fn push(&mut self, opener: Opener) -> Result<(), TokenFault>
        ensures ok { OnOk result (self.new ≡ opener ∷ self.old) }
        ensures err { IfErr result (λ e. e ≡ TokenFault.NoMemory) }
    {
        if self.items.push(opener).is_err() {
            return Err(TokenFault::NoMemory);
        }
        Ok(())
    }

    /// Takes the innermost opener.
    pub(crate) fn pop(&mut self) -> Option<Opener>
        ensures some { (o : Opener) → result ≡ Some o → self.old ≡ o ∷ self.new }
        ensures none { result ≡ None → self.old ≡ [] }
    {
        self.items.pop()
    }

    /// The place of the innermost opener.
    pub(crate) fn innermost(&self) -> Option<u32>
        ensures { result ≡ kept_place self.now }
    {
        self.items.last().map(|opener| opener.place)
    }

    /// Whether the innermost opener is the `${` of a template.
    pub(crate) fn is_in_template(&self) -> bool
        ensures { result ≡ is_kept_in_template self.now }
    {
        match self.items.last() {
            Some(opener) => opener.closer == b'`',
            None => false,
        }
    }
}
