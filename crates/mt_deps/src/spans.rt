//! How far functions reach that shield what is in them, for each token.
ghost use Rattle.std.specs.Prelude.{◌≡◌, ◌∷◌, ◌<◌, [], ℕ, List, drop, length, if◌then◌else◌, IfOk, OnOk};
ghost use Rattle.mt_tokens.specs.Shields.{begins_parameter};
ghost use Rattle.mt_tokens.specs.Sites.{opens};
ghost use Rattle.mt_tokens.specs.Words.{seen};
ghost use Rattle.mt_deps.specs.Groups.{body_before, first_group, groups_before, mark_first, span_by, spans_of, without_opened};
ghost use Rattle.mt_deps.specs.Seen.{seen_of};

use crate::seen::SeenTokens;
use crate::sites::begins_with;
use mt_tokens::{
    Token, is_closing_token, is_mark_token, is_opening_token, is_seen_kind, is_word_token,
};
use std::alloc::{AllocError, Global};
use std::marker::Model;

/// A bracket of which the closer is read, from the last token back. Places are numbers of tokens to the end.
#[derive(Clone, Copy)]
pub(crate) struct Group {
    /// How many tokens are after its closer.
    pub after: usize,
    /// How many are after the body that begins directly after its closer, if one does.
    pub body: Option<usize>,
    /// Whether a `require` is a parameter in it, directly and after a `,`.
    pub has: bool,
}

/// Brackets that are closed and not opened in the tokens read. Contracts see the innermost first, which is the last in
/// memory.
#[derive(Drop)]
struct Groups {
    items: Vec<Group>,
}

impl Model for Groups {
    ghost use Rattle.std.specs.Prelude.{List, reverse};
    ghost use Rattle.mt_deps.specs.declared.spans.Group.{Group};

    ghost Value = { List Group };

    ghost view = { λ g. reverse g.items.items };
}

impl Groups {
    fn new(alloc: Global) -> Groups
        ensures { result ≡ [] }
    {
        Groups {
            items: Vec::new(alloc),
        }
    }

    fn push(&mut self, group: Group) -> Result<(), AllocError>
        ensures { OnOk result (self.new ≡ group ∷ self.old) }
    {
        self.items.push(group)?;
        Ok(())
    }

    /// The innermost.
    fn top(&self) -> Option<Group>
        ensures { result ≡ first_group self.now }
    {
        self.items.last().copied()
    }

    /// Takes the innermost out.
    fn pop(&mut self)
        ensures { self.new ≡ drop 1 self.old }
    {
        self.items.pop();
    }

    /// Says of the innermost that a `require` is a parameter in it.
    fn mark(&mut self) -> Result<(), AllocError>
        ensures { OnOk result (self.new ≡ mark_first self.old) }
    {
        let Some(group) = self.top() else {
            return Ok(());
        };
        self.pop();
        self.push(Group { has: true, ..group })
    }

    /// Takes the innermost out where a token opens it.
    fn open(&mut self, bytes: &[u8], here: Token)
        ensures { self.new ≡ without_opened bytes.now self.old here }
    {
        if is_opening_token(bytes, here) {
            self.pop();
        }
    }
}

/// A span, and how many spans of 0 are directly after it.
#[derive(Clone, Copy)]
pub(crate) struct Span {
    pub count: usize,
    pub zeros: usize,
}

/// The spans of tokens. Contracts see that of the first token first, which is the last in memory. Spans of 0 are counted.
#[derive(Drop)]
pub(crate) struct Spans {
    items: Vec<Span>,
    zeros: usize,
}

impl Model for Spans {
    ghost use Rattle.std.specs.Prelude.{List, ℕ, reverse};

    ghost Value = { List ℕ };

    ghost use Rattle.mt_deps.specs.Spans.{spans_in, zeros_before};

    ghost view = { λ s. zeros_before s.zeros (spans_in (reverse s.items.items)) };
}

impl Spans {
    fn new(alloc: Global) -> Spans
        ensures { result ≡ [] }
    {
        Spans {
            items: Vec::new(alloc),
            zeros: 0,
        }
    }

    fn push(&mut self, count: usize) -> Result<(), AllocError>
        ensures { OnOk result (self.new ≡ count ∷ self.old) }
    {
        if count == 0 && self.zeros < usize::MAX {
            self.zeros += 1;
            return Ok(());
        }
        let zeros = self.zeros;
        self.items.push(Span { count, zeros })?;
        self.zeros = 0;
        Ok(())
    }

    /// The span of the first token, which is taken out; 0 if there is none.
    pub(crate) fn pop(&mut self) -> usize
        ensures first { (n : ℕ) (ns : List ℕ) → self.old ≡ n ∷ ns → result ≡ n }
        ensures rest { self.new ≡ drop 1 self.old }
    {
        if self.zeros > 0 {
            self.zeros -= 1;
            return 0;
        }
        let Some(span) = self.items.pop() else {
            return 0;
        };
        self.zeros = span.zeros;
        span.count
    }
}

/// Whether the tokens begin with a parameter `require`.
fn is_parameter(bytes: &[u8], tokens: SeenTokens) -> bool
    ensures { result ≡ begins_parameter bytes.now (seen_of tokens.entry) }
{
    match tokens.split_first() {
        Some((first, rest)) => {
            is_word_token(bytes, b"require", first)
                && (begins_with(bytes, b",", rest)
                    || begins_with(bytes, b")", rest)
                    || begins_with(bytes, b"=", rest))
        }
        None => false,
    }
}

/// Puts a token before so many others, whose brackets these are.
fn put_before(
    bytes: &[u8],
    groups: &mut Groups,
    body: Option<usize>,
    here: Token,
    after: SeenTokens,
    count: usize,
) -> Result<(), AllocError>
    requires { count ≡ length (seen_of after) }
    ensures { OnOk result (groups.new ≡ groups_before bytes.now groups.old body here (seen_of after.entry)) }
{
    groups.open(bytes, here);
    if is_closing_token(bytes, here) {
        return groups.push(Group {
            after: count,
            body,
            has: false,
        });
    }
    if is_mark_token(bytes, b",", here) && is_parameter(bytes, after) {
        return groups.mark();
    }
    Ok(())
}

/// How many tokens are after a body that begins with this token, whose bracket is `top`.
fn body_at(bytes: &[u8], top: Option<Group>, here: Token) -> Option<usize>
    ensures { result ≡ body_before bytes.now top here }
{
    is_mark_token(bytes, b"{", here).then_some(top.map_or(0, |group| group.after))
}

/// The span of a token whose bracket is `top`, before so many others.
fn span_at(bytes: &[u8], top: Option<Group>, here: Token, after: SeenTokens, count: usize) -> usize
    requires room { count < usize.MAX }
    requires count { count ≡ length (seen_of after) }
    ensures { result ≡ span_by bytes.now top here (seen_of after.entry) }
{
    let Some(group) = top else {
        return 0;
    };
    if !is_mark_token(bytes, b"(", here) || !(is_parameter(bytes, after) || group.has) {
        return 0;
    }
    match group.body {
        Some(behind) => (count + 1).saturating_sub(behind),
        None => 0,
    }
}

/// The spans of tokens, in one pass from the last one back. Blanks and comments have none.
pub(crate) fn read_spans(alloc: Global, bytes: &[u8], tokens: &[Token]) -> Result<Spans, AllocError>
    ensures { IfOk result (λ s. s ≡ spans_of bytes.now (seen tokens.now)) }
{
    let mut spans = Spans::new(alloc);
    let mut groups = Groups::new(alloc);
    let mut body = None;
    let mut count = 0usize;
    let mut rest = tokens.len();
    while rest > 0 {
        rest -= 1;
        let here = tokens[rest];
        if !is_seen_kind(here.kind) {
            continue;
        }
        let after = SeenTokens {
            tokens: &tokens[rest + 1..],
        };
        let top = groups.top();
        spans.push(span_at(bytes, top, here, after, count))?;
        put_before(bytes, &mut groups, body, here, after, count)?;
        body = body_at(bytes, top, here);
        count += 1;
    }
    Ok(spans)
}
