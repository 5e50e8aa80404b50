//! The forms of exports.
ghost use Rattle.std.specs.Prelude.{◌≡◌, ◌∷◌, IfOk, option_map};
ghost use Rattle.mt_tokens.specs.Forms.{begins_import, declared_names, declaring_words, ending_words, ends_names, export_all, export_declared, export_default, export_form, export_list, function_name, given_name, is_any_word, is_declared};
ghost use Rattle.mt_tokens.specs.declared.forms.Form.TheVariants.{ExportFrom};
ghost use Rattle.mt_tokens.specs.Cut.{AreCut};
ghost use Rattle.mt_deps.specs.Seen.{seen_items, seen_of, seen_site};

use crate::lists::{ItemsRead, end_of_statement, read_all, read_from, read_list};
use crate::seen::SeenTokens;
use crate::sites::{
    Site, Sites, after_first, begins_with, begins_with_word, is_name_token, is_word_at,
    leading_name,
};
use mt_containers::List;
use mt_tokens::{Bound, Form, Named, Token, is_mark_token, is_plain_here, is_word_token};
use std::alloc::{AllocError, Global};

/// An export from a module, if there is one.
fn export_from(bound: Bound, named: Option<Named>) -> Option<Form>
    ensures { result ≡ option_map (λ m. ExportFrom bound m) named }
{
    match named {
        Some(named) => Some(Form::ExportFrom { bound, named }),
        None => None,
    }
}

/// `LIST from S`, or `LIST`.
fn read_export_list(alloc: Global, text: &str, list: ItemsRead) -> Result<Option<Form>, AllocError>
    requires { AreCut text.now (seen_items list).rest }
    ensures { IfOk result (λ f. f ≡ export_list text.now (seen_items list.entry)) }
{
    let bytes = text.as_bytes();
    if !begins_with_word(bytes, b"from", list.rest) {
        let end = end_of_statement(bytes, list.close, list.rest);
        return Ok(Some(Form::ExportList {
            items: list.items,
            end,
        }));
    }
    let named = read_from(alloc, text, list.rest)?;
    Ok(export_from(Bound::Listed(list.items), named))
}

/// After `export *`: `from S`, or `as n from S`.
#[tactic(auto, using(crate::proofs::Cuts::all_rest))]
fn read_export_all(
    alloc: Global,
    text: &str,
    tokens: SeenTokens,
) -> Result<Option<Form>, AllocError>
    requires { AreCut text.now (seen_of tokens) }
    ensures { IfOk result (λ f. f ≡ export_all text.now (seen_of tokens.entry)) }
{
    let bytes = text.as_bytes();
    if begins_with_word(bytes, b"from", tokens) {
        let named = read_from(alloc, text, tokens)?;
        return Ok(export_from(Bound::Nothing, named));
    }
    let Some(read) = read_all(bytes, tokens) else {
        return Ok(None);
    };
    let named = read_from(alloc, text, read.rest)?;
    Ok(export_from(read.bound, named))
}

/// The name after `function`, which a `*` may follow.
fn name_of_function(bytes: &[u8], tokens: SeenTokens) -> Option<Token>
    ensures { result ≡ function_name bytes.now (seen_of tokens.entry) }
{
    if begins_with(bytes, b"*", tokens) {
        leading_name(after_first(tokens))
    } else {
        leading_name(tokens)
    }
}

/// The name of a function or a class.
fn name_given(bytes: &[u8], tokens: SeenTokens) -> Option<Token>
    ensures { result ≡ given_name bytes.now (seen_of tokens.entry) }
{
    let Some((first, after)) = tokens.split_first() else {
        return None;
    };
    if is_word_token(bytes, b"class", first) {
        leading_name(after)
    } else if is_word_token(bytes, b"function", first) {
        name_of_function(bytes, after)
    } else if is_word_token(bytes, b"async", first) && begins_with_word(bytes, b"function", after) {
        name_of_function(bytes, after_first(after))
    } else {
        None
    }
}

/// Whether a token is a word that begins the next statement.
fn is_ending_word(bytes: &[u8], token: Token) -> bool
    ensures { result ≡ is_any_word bytes.now ending_words token }
{
    is_word_token(bytes, b"export", token)
        || is_word_token(bytes, b"var", token)
        || is_word_token(bytes, b"let", token)
        || is_word_token(bytes, b"const", token)
        || is_word_token(bytes, b"if", token)
        || is_word_token(bytes, b"for", token)
        || is_word_token(bytes, b"while", token)
        || is_word_token(bytes, b"do", token)
        || is_word_token(bytes, b"switch", token)
        || is_word_token(bytes, b"try", token)
        || is_word_token(bytes, b"throw", token)
}

/// Whether an `import` begins a statement here.
fn is_import_statement(bytes: &[u8], site: &Site) -> bool
    ensures { result ≡ begins_import bytes.now (seen_site site.now) }
{
    is_word_at(bytes, b"import", site)
        && !(begins_with(bytes, b"(", site.after) || begins_with(bytes, b".", site.after))
}

/// Whether a list of declared names is over here.
fn is_end_of_names(bytes: &[u8], site: &Site) -> bool
    ensures { result ≡ ends_names bytes.now (seen_site site.now) }
{
    site.depth == 0
        && (is_mark_token(bytes, b";", site.here)
            || (is_ending_word(bytes, site.here) && is_plain_here(bytes, site.before))
            || is_import_statement(bytes, site))
}

/// Whether a name stands here directly after a `,` of depth 0.
fn is_name_after_comma(bytes: &[u8], site: &Site) -> bool
    ensures { result ≡ is_declared bytes.now (seen_site site.now) }
{
    let after_comma = site
        .before
        .is_some_and(|token| is_mark_token(bytes, b",", token));
    site.depth == 0 && is_name_token(site.here) && after_comma
}

/// The names that `var`, `let` or `const` declares.
fn read_names(
    alloc: Global,
    bytes: &[u8],
    keyword: Token,
    tokens: SeenTokens,
) -> Result<List<Token>, AllocError>
    ensures { IfOk result (λ names. names ≡ declared_names bytes.now keyword (seen_of tokens.entry)) }
{
    let mut names = List::new(alloc);
    let Some((first, _)) = tokens.split_first() else {
        return Ok(names);
    };
    names.push(first)?;
    let mut sites = Sites::new(Some(keyword), tokens);
    while let Some(site) = sites.next(bytes) {
        if is_end_of_names(bytes, &site) {
            return Ok(names);
        }
        if is_name_after_comma(bytes, &site) {
            names.push(site.here)?;
        }
    }
    Ok(names)
}

/// After `export default`.
fn read_export_default(bytes: &[u8], default: Token, tokens: SeenTokens) -> Form
    ensures { result ≡ export_default bytes.now default (seen_of tokens.entry) }
{
    let local = match name_given(bytes, tokens) {
        Some(name) if !is_word_token(bytes, b"extends", name) => Some(name),
        _ => None,
    };
    Form::ExportDefault {
        end: default.end,
        local,
    }
}

fn is_declaring_word(bytes: &[u8], token: Token) -> bool
    ensures { result ≡ is_any_word bytes.now declaring_words token }
{
    is_word_token(bytes, b"var", token)
        || is_word_token(bytes, b"let", token)
        || is_word_token(bytes, b"const", token)
}

/// After `export`: a function or a class with a name, or names that are declared. `tokens` are the first and those after it.
fn read_export_declared(
    alloc: Global,
    bytes: &[u8],
    first: Token,
    after: SeenTokens,
    tokens: SeenTokens,
) -> Result<Option<Form>, AllocError>
    requires { (seen_of tokens) ≡ first ∷ (seen_of after) }
    ensures { IfOk result (λ f. f ≡ export_declared bytes.now first (seen_of after.entry)) }
{
    if let Some(name) = name_given(bytes, tokens) {
        let mut names = List::new(alloc);
        names.push(name)?;
        return Ok(Some(Form::ExportDeclared { names }));
    }
    if is_declaring_word(bytes, first) && leading_name(after).is_some() {
        let names = read_names(alloc, bytes, first, after)?;
        return Ok(Some(Form::ExportDeclared { names }));
    }
    Ok(None)
}

/// What stands after `export`.
#[tactic(auto, using(crate::proofs::Cuts::list_rest))]
pub(crate) fn read_export_form(
    alloc: Global,
    text: &str,
    tokens: SeenTokens,
) -> Result<Option<Form>, AllocError>
    requires { AreCut text.now (seen_of tokens) }
    ensures { IfOk result (λ f. f ≡ export_form text.now (seen_of tokens.entry)) }
{
    let bytes = text.as_bytes();
    let Some((first, after)) = tokens.split_first() else {
        return Ok(None);
    };
    if is_mark_token(bytes, b"{", first) {
        return match read_list(alloc, bytes, after)? {
            Some(list) => read_export_list(alloc, text, list),
            None => Ok(None),
        };
    }
    if is_mark_token(bytes, b"*", first) {
        return read_export_all(alloc, text, after);
    }
    if is_word_token(bytes, b"default", first) {
        return Ok(Some(read_export_default(bytes, first, after)));
    }
    read_export_declared(alloc, bytes, first, after, tokens)
}
