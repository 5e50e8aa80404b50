//! Writing the body of a script.
ghost use Rattle.std.specs.Prelude.{◌≡◌, ◌++◌, ◌∷◌, [], IfOk, OnOk, is_some, codes};
ghost use Rattle.mt_tokens.specs.Transform.{body_of, comment_edit, comment_edits, edited, edits_before, edits_from, end_text, has_line_end, json_of, left_of, merged, start_text};
ghost use Rattle.mt_transform.specs.Drafts.{Goes};

use mt_chars::{begins_line_end_at, part};
use mt_deps::{DepList, Mark, Use};
use mt_tokens::{Bytes, Token, TokenKind, token_bytes};
use std::alloc::{AllocError, Global};

/// The line that a body with exports begins with.
const EXPORTS_LINE: &[u8] = b"Object.defineProperty(exports, \"__esModule\", { value: true });\n";

/// A body up to a place in the source.
#[derive(Drop)]
pub(crate) struct Draft {
    /// What is written.
    pub body: Bytes,
    /// The place up to which the source is written.
    pub at: usize,
}

impl Draft {
    /// Makes an edit, unless it begins before the last one ended.
    fn edit(&mut self, source: &[u8], start: u32, end: u32, text: &[u8]) -> Result<(), AllocError>
        ensures { OnOk result (Goes source.now self.old self.new (record { start = start; end = end; text = text.now } ∷ [])) }
    {
        let start = start as usize;
        if start < self.at {
            return Ok(());
        }
        self.body.extend(part(source, self.at, start))?;
        self.body.extend(text)?;
        self.at = end as usize;
        Ok(())
    }

    /// Makes the edits that begin before a place, and gives the others.
    fn edit_before<'u>(
        &mut self,
        source: &[u8],
        uses: &'u [Use],
        place: u32,
    ) -> Result<&'u [Use], AllocError>
        ensures rest { IfOk result (λ rest. rest.now ≡ edits_from place uses.now) }
        ensures edits { OnOk result (Goes source.now self.old self.new (edits_before place uses.now)) }
    {
        let mut rest = uses;
        while let Some((first, more)) = rest.split_first() {
            if first.start >= place {
                return Ok(rest);
            }
            self.edit(source, first.start, first.end, first.text.as_bytes())?;
            rest = more;
        }
        Ok(rest)
    }

    /// Makes all edits, and writes the rest of the source.
    fn finish(&mut self, source: &[u8], uses: &[Use]) -> Result<(), AllocError>
        ensures { OnOk result (self.new.body ≡ self.old.body ++ edited source.now self.old.at uses.now) }
    {
        let mut rest = uses;
        while let Some((first, more)) = rest.split_first() {
            self.edit(source, first.start, first.end, first.text.as_bytes())?;
            rest = more;
        }
        self.body.extend(part(source, self.at, source.len()))
    }
}

/// Whether there is a line end in a comment.
fn has_end_of_line(comment: &[u8]) -> bool
    ensures { result ≡ has_line_end comment.now }
{
    let mut rest = comment;
    while let Some((_, more)) = rest.split_first() {
        if begins_line_end_at(rest) {
            return true;
        }
        rest = more;
    }
    false
}

/// What takes the place of a comment that is left out.
fn text_for(comment: &[u8]) -> &'static [u8]
    ensures { result.now ≡ left_of comment.now }
{
    if !comment.starts_with(b"/*") {
        return b"";
    }
    if has_end_of_line(comment) {
        b"\n"
    } else {
        b" "
    }
}

/// Whether a token is a comment that is left out.
fn is_left_out_here(strip: bool, source: &[u8], token: Token) -> bool
    ensures { result ≡ is_some (comment_edit strip source.now token) }
{
    matches!(token.kind, TokenKind::Comment)
        && (strip || token_bytes(source, token).starts_with(b"#!"))
}

/// Writes the source with its edits: `uses`, and the comments that are left out.
fn write_edited(
    body: Bytes,
    strip: bool,
    source: &[u8],
    tokens: &[Token],
    uses: &[Use],
) -> Result<Bytes, AllocError>
    ensures { IfOk result (λ all. all ≡ body ++ edited source.now 0 (merged uses.now (comment_edits strip source.now tokens.now))) }
{
    let mut draft = Draft { body, at: 0 };
    let mut uses = uses;
    let mut rest = tokens;
    while let Some((token, more)) = rest.split_first() {
        if is_left_out_here(strip, source, *token) {
            uses = draft.edit_before(source, uses, token.start)?;
            let text = text_for(token_bytes(source, *token));
            draft.edit(source, token.start, token.end, text)?;
        }
        rest = more;
    }
    draft.finish(source, uses)?;
    let Draft { body, .. } = draft;
    Ok(body)
}

/// Writes the lines at the end of a body.
fn write_marks(body: &mut Bytes, marks: &[Mark]) -> Result<(), AllocError>
    ensures { OnOk result (body.new ≡ body.old ++ end_text marks.now) }
{
    let mut rest = marks;
    while let Some((mark, more)) = rest.split_first() {
        body.extend(b"\nexports.")?;
        body.extend(mark.name.as_bytes())?;
        body.extend(b" = ")?;
        body.extend(mark.local.as_bytes())?;
        body.extend(b";")?;
        rest = more;
    }
    Ok(())
}

/// A body that has only its first line, if it exports.
fn begin_body(alloc: Global, len: usize, exporting: bool) -> Result<Bytes, AllocError>
    ensures { IfOk result (λ body. body ≡ start_text exporting) }
{
    let mut body = Bytes::with_capacity(alloc, len)?;
    if exporting {
        body.extend(EXPORTS_LINE)?;
    }
    Ok(body)
}

/// The body of a script with these tokens, by what is found in it.
pub(crate) fn write_body(
    alloc: Global,
    strip: bool,
    source: &[u8],
    tokens: &[Token],
    found: &DepList,
) -> Result<Bytes, AllocError>
    ensures { IfOk result (λ body. body ≡ body_of strip source.now tokens.now found.now) }
{
    let start = begin_body(alloc, source.len(), found.exporting())?;
    let mut body = write_edited(start, strip, source, tokens, found.uses().as_slice())?;
    write_marks(&mut body, found.marks().as_slice())?;
    Ok(body)
}

/// The body of a JSON source.
pub(crate) fn write_json(alloc: Global, source: &[u8]) -> Result<Bytes, AllocError>
    ensures { IfOk result (λ body. body ≡ (json_of source.now).body) }
{
    let mut body = Bytes::with_capacity(alloc, source.len())?;
    body.extend(b"module.exports = ")?;
    body.extend(source)?;
    body.extend(b";")?;
    Ok(body)
}
