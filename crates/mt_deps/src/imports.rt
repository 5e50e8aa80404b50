//! The forms of imports.
ghost use Rattle.std.specs.Prelude.{◌≡◌, IfOk, option_map};
ghost use Rattle.mt_tokens.specs.Forms.{bound_import, default_import, import_form};
ghost use Rattle.mt_tokens.specs.declared.forms.Form.TheVariants.{Import};
ghost use Rattle.mt_tokens.specs.Cut.{AreCut};
ghost use Rattle.mt_deps.specs.Seen.{seen_of};

use crate::lists::{end_of_statement, read_bound, read_from, read_named};
use crate::seen::SeenTokens;
use crate::sites::{after_first, begins_with, is_name_token};
use mt_tokens::{Bound, Form, Named, Token, TokenKind};
use std::alloc::{AllocError, Global};

/// An import of a module, if there is one.
fn import_of(default: Option<Token>, bound: Bound, named: Option<Named>) -> Option<Form>
    ensures { result ≡ option_map (λ m. Import default bound m) named }
{
    match named {
        Some(named) => Some(Form::Import {
            default,
            bound,
            named,
        }),
        None => None,
    }
}

/// `* as n from S`, or `LIST from S`.
fn read_bound_import(
    alloc: Global,
    text: &str,
    default: Option<Token>,
    tokens: SeenTokens,
) -> Result<Option<Form>, AllocError>
    requires { AreCut text.now (seen_of tokens) }
    ensures { IfOk result (λ f. f ≡ bound_import text.now default (seen_of tokens.entry)) }
{
    let Some(read) = read_bound(alloc, text.as_bytes(), tokens)? else {
        return Ok(None);
    };
    let named = read_from(alloc, text, read.rest)?;
    Ok(import_of(default, read.bound, named))
}

/// After `import d`: `from S`, or `,` and what else is taken.
#[tactic(auto, using(crate::proofs::Cuts::but_first))]
fn read_default_import(
    alloc: Global,
    text: &str,
    name: Token,
    tokens: SeenTokens,
) -> Result<Option<Form>, AllocError>
    requires { AreCut text.now (seen_of tokens) }
    ensures { IfOk result (λ f. f ≡ default_import text.now name (seen_of tokens.entry)) }
{
    if begins_with(text.as_bytes(), b",", tokens) {
        return read_bound_import(alloc, text, Some(name), after_first(tokens));
    }
    let named = read_from(alloc, text, tokens)?;
    Ok(import_of(Some(name), Bound::Nothing, named))
}

/// What stands after `import`.
pub(crate) fn read_import_form(
    alloc: Global,
    text: &str,
    tokens: SeenTokens,
) -> Result<Option<Form>, AllocError>
    requires { AreCut text.now (seen_of tokens) }
    ensures { IfOk result (λ f. f ≡ import_form text.now (seen_of tokens.entry)) }
{
    let Some((first, after)) = tokens.split_first() else {
        return Ok(None);
    };
    if matches!(first.kind, TokenKind::Str) {
        let end = end_of_statement(text.as_bytes(), first, after);
        let named = read_named(alloc, text, first, end)?;
        return Ok(import_of(None, Bound::Nothing, named));
    }
    if is_name_token(first) {
        return read_default_import(alloc, text, first, after);
    }
    read_bound_import(alloc, text, None, tokens)
}
