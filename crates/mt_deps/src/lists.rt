//! Lists of names in braces, and the modules that strings name.
ghost use Rattle.std.specs.Prelude.{◌≡◌, ◌≤◌, ◌++◌, ◌∷◌, [], length, take, drop, true, false, Some, None, IfOk, option_map};
ghost use Rattle.mt_tokens.specs.Cut.{AreCut};
ghost use Rattle.mt_tokens.specs.Forms.{all_as, bound, from_named, item, list, named_by, statement_end};
ghost use Rattle.mt_tokens.specs.Tokens.{IsCut};
ghost use Rattle.mt_deps.specs.Seen.{seen_bound, seen_items, seen_of};

use crate::seen::SeenTokens;
use crate::sites::is_name_token;
use mt_containers::List;
use mt_tokens::{
    Bound, Item, Named, Token, TokenKind, cook, is_mark_token, is_word_token, token_text,
};
use std::alloc::{AllocError, Global};

/// The items of a list, its `}`, and the tokens after it.
#[derive(Drop)]
pub(crate) struct ItemsRead<'t> {
    pub items: List<Item>,
    pub close: Token,
    pub rest: SeenTokens<'t>,
}

/// What a statement takes of a module, and the tokens after it.
#[derive(Drop)]
pub(crate) struct BoundRead<'t> {
    pub bound: Bound,
    pub rest: SeenTokens<'t>,
}

/// The module that a string names, in a statement or a call up to this end.
#[tactic(auto, unfolding(mt_tokens::specs::Forms::named_by))]
pub(crate) fn read_named(
    alloc: Global,
    text: &str,
    string: Token,
    end: u32,
) -> Result<Option<Named>, AllocError>
    requires { IsCut text.now string }
    ensures { IfOk result (λ m. m ≡ named_by text.now string end) }
{
    if !matches!(string.kind, TokenKind::Str) {
        return Ok(None);
    }
    match cook(alloc, token_text(text, string))? {
        Some(name) => Ok(Some(Named { name, string, end })),
        None => Ok(None),
    }
}

/// The place after a statement with this last token.
pub(crate) fn end_of_statement(bytes: &[u8], last: Token, rest: SeenTokens) -> u32
    ensures { result ≡ statement_end bytes.now last (seen_of rest.entry) }
{
    match rest.split_first() {
        Some((next, _)) if is_mark_token(bytes, b";", next) => next.end,
        _ => last.end,
    }
}

/// `from S`.
pub(crate) fn read_from(
    alloc: Global,
    text: &str,
    tokens: SeenTokens,
) -> Result<Option<Named>, AllocError>
    requires { AreCut text.now (seen_of tokens) }
    ensures { IfOk result (λ m. m ≡ from_named text.now (seen_of tokens.entry)) }
{
    let Some((from, after)) = tokens.split_first() else {
        return Ok(None);
    };
    let Some((string, rest)) = after.split_first() else {
        return Ok(None);
    };
    let bytes = text.as_bytes();
    if !is_word_token(bytes, b"from", from) {
        return Ok(None);
    }
    read_named(alloc, text, string, end_of_statement(bytes, string, rest))
}

/// The item that so many tokens are: `n`, or `n as m`.
#[tactic(auto, using(crate::proofs::ListSteps::item_other))]
fn read_item(bytes: &[u8], from: SeenTokens, count: usize) -> Option<Item>
    requires { count ≤ length (seen_of from) }
    ensures { result ≡ item bytes.now (take count (seen_of from.entry)) }
{
    if count != 1 && count != 3 {
        return None;
    }
    let (name, after) = from.split_first()?;
    if !is_name_token(name) {
        return None;
    }
    if count == 1 {
        return Some(Item { name, other: name });
    }
    let (word, after) = after.split_first()?;
    let (other, _) = after.split_first()?;
    if is_word_token(bytes, b"as", word) && is_name_token(other) {
        Some(Item { name, other })
    } else {
        None
    }
}

/// Adds the item that so many tokens are. Answers whether they are one.
fn add_item(
    bytes: &[u8],
    from: SeenTokens,
    count: usize,
    items: &mut List<Item>,
) -> Result<bool, AllocError>
    requires { count ≤ length (seen_of from) }
    ensures some { IfOk result (λ fits. fits ≡ true → option_map (λ i. items.old ++ i ∷ []) (item bytes.now (take count (seen_of from.entry))) ≡ Some items.new) }
    ensures none { IfOk result (λ fits. fits ≡ false → item bytes.now (take count (seen_of from.entry)) ≡ None) }
{
    let Some(item) = read_item(bytes, from, count) else {
        return Ok(false);
    };
    items.push(item)?;
    Ok(true)
}

/// A list after its `{`.
pub(crate) fn read_list<'t>(
    alloc: Global,
    bytes: &[u8],
    tokens: SeenTokens<'t>,
) -> Result<Option<ItemsRead<'t>>, AllocError>
    ensures { IfOk result (λ l. option_map seen_items l ≡ list bytes.now [] (seen_of tokens.entry)) }
{
    let mut items = List::new(alloc);
    let mut from = tokens;
    let mut count = 0usize;
    let mut rest = tokens;
    while let Some((here, after)) = rest.split_first() {
        if is_mark_token(bytes, b"}", here) {
            if count != 0 && !add_item(bytes, from, count, &mut items)? {
                return Ok(None);
            }
            return Ok(Some(ItemsRead {
                items,
                close: here,
                rest: after,
            }));
        }
        if is_mark_token(bytes, b",", here) {
            if !add_item(bytes, from, count, &mut items)? {
                return Ok(None);
            }
            from = after;
            count = 0;
        } else {
            count += 1;
        }
        rest = after;
    }
    Ok(None)
}

/// `as n`, for the whole of a module.
pub(crate) fn read_all<'t>(bytes: &[u8], tokens: SeenTokens<'t>) -> Option<BoundRead<'t>>
    ensures { option_map seen_bound result ≡ all_as bytes.now (seen_of tokens.entry) }
{
    let (word, after) = tokens.split_first()?;
    let (name, rest) = after.split_first()?;
    if is_word_token(bytes, b"as", word) && is_name_token(name) {
        Some(BoundRead {
            bound: Bound::All(name),
            rest,
        })
    } else {
        None
    }
}

/// `* as n`, or a list.
pub(crate) fn read_bound<'t>(
    alloc: Global,
    bytes: &[u8],
    tokens: SeenTokens<'t>,
) -> Result<Option<BoundRead<'t>>, AllocError>
    ensures { IfOk result (λ b. option_map seen_bound b ≡ bound bytes.now (seen_of tokens.entry)) }
{
    let Some((first, after)) = tokens.split_first() else {
        return Ok(None);
    };
    if is_mark_token(bytes, b"*", first) {
        return Ok(read_all(bytes, after));
    }
    if !is_mark_token(bytes, b"{", first) {
        return Ok(None);
    }
    match read_list(alloc, bytes, after)? {
        Some(list) => Ok(Some(BoundRead {
            bound: Bound::Listed(list.items),
            rest: list.rest,
        })),
        None => Ok(None),
    }
}
