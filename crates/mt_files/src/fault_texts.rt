//! How a fault is told.
ghost use Rattle.std.specs.Prelude.{◌≡◌, [], ◌∷◌, ◌++◌, ◌<◌, codes, string_bytes, IfOk, OnOk};
ghost use Rattle.std.specs.List.{flat_map};
ghost use Rattle.std.proofs.Math.Utf8.{encode};
ghost use Rattle.mt_files.specs.FaultText.{at_place, control_text, entry_text, hex_digit, package_text, quoted, quoted_byte, source_text, syntax_text, text_of, unresolved_text};

use crate::build_fault::BuildFault;
use mt_path::Path;
use mt_tokens::{SourceFault, SyntaxFault, Text};
use std::alloc::{AllocError, Global};

/// The hexadecimal digit of a number below 16, in lower case.
fn hex_digit_of(number: u32) -> char
    requires small { number < 16 }
    ensures digit { result ≡ hex_digit number }
{
    char::from_digit(number, 16).unwrap()
}

/// Adds a control character to a text, as `\x` with two hexadecimal digits.
fn push_control(text: &mut String, code: u32) -> Result<(), AllocError>
    requires control { code < 128 }
    ensures ok { OnOk result (string_bytes text.new ≡ string_bytes text.old ++ control_text code) }
{
    text.push_str("\\x")?;
    text.push(hex_digit_of(code / 16))?;
    text.push(hex_digit_of(code % 16))?;
    Ok(())
}

/// Adds a character of a name that stands for itself to a text.
fn push_plain(text: &mut String, character: char) -> Result<(), AllocError>
    requires plain { quoted_byte character ≡ character ∷ [] }
    ensures ok { OnOk result (string_bytes text.new ≡ string_bytes text.old ++ flat_map quoted_byte (encode character)) }
{
    text.push(character)
}

/// Adds a character of a name to a text: with `\` before it where it is `\` or `"`, and a control character as `\x` with
/// two hexadecimal digits.
fn push_quoted(text: &mut String, character: char) -> Result<(), AllocError>
    ensures ok { OnOk result (string_bytes text.new ≡ string_bytes text.old ++ flat_map quoted_byte (encode character)) }
{
    match character {
        '\\' | '"' => {
            text.push('\\')?;
            text.push(character)
        }
        '\0'..='\x1f' | '\x7f' => push_control(text, u32::from(character)),
        _ => push_plain(text, character),
    }
}

/// A name between `"`.
fn quoted_name(alloc: Global, name: &str) -> Result<String, AllocError>
    ensures bytes { IfOk result (λ text. string_bytes text ≡ quoted name.now) }
{
    let mut text = String::from_str(alloc, "\"")?;
    for character in name.chars() {
        push_quoted(&mut text, character)?;
    }
    text.push_str("\"")?;
    Ok(text)
}

/// What breaks the grammar.
fn syntax_words(why: SyntaxFault) -> &'static str
    ensures words { result.now ≡ syntax_text why }
{
    match why {
        SyntaxFault::UnclosedString => "unclosed string",
        SyntaxFault::UnclosedComment => "unclosed comment",
        SyntaxFault::BadCharacter => "bad character",
        SyntaxFault::UnbalancedBracket => "unbalanced bracket",
        SyntaxFault::UnclosedTemplate => "unclosed template",
        SyntaxFault::UnclosedRegex => "unclosed regular expression",
        SyntaxFault::ImportForm => "import form",
        SyntaxFault::ExportForm => "export form",
    }
}

/// A path, a place and what is wrong there.
fn place_text(alloc: Global, path: &Path, place: u32, words: &str) -> Result<String, AllocError>
    ensures bytes { IfOk result (λ text. string_bytes text ≡ at_place path.now place words.now) }
{
    let path = path.as_str();
    format!(in alloc; "{path}:{place}: {words}")
}

/// The text of an entry where no source stands.
fn missing_entry(alloc: Global, path: &Path) -> Result<String, AllocError>
    ensures bytes { IfOk result (λ text. string_bytes text ≡ entry_text path.now) }
{
    let path = path.as_str();
    format!(in alloc; "entry {path} is not a source file")
}

/// The text of what breaks the grammar at a place.
fn syntax_fault(
    alloc: Global,
    path: &Path,
    place: u32,
    why: SyntaxFault,
) -> Result<String, AllocError>
    ensures bytes { IfOk result (λ text. string_bytes text ≡ source_text path.now (SourceFault.Syntax place why)) }
{
    let mut words = String::from_str(alloc, "syntax: ")?;
    words.push_str(syntax_words(why))?;
    place_text(alloc, path, place, words.as_str())
}

/// The text of the refusal of a source.
fn source_fault(alloc: Global, path: &Path, fault: SourceFault) -> Result<String, AllocError>
    ensures bytes { IfOk result (λ text. string_bytes text ≡ source_text path.now fault) }
{
    match fault {
        SourceFault::NotUtf8 { place } => place_text(alloc, path, place, "not UTF-8"),
        SourceFault::Syntax { place, why } => syntax_fault(alloc, path, place, why),
        SourceFault::Json => place_text(alloc, path, 0, "not JSON"),
        SourceFault::TooManyDeps => place_text(alloc, path, 0, "more than 4096 dependencies"),
        SourceFault::NoMemory => String::from_str(alloc, "out of memory"),
    }
}

/// What is told of a name that leads nowhere.
fn unresolved_words(alloc: Global, name: &str) -> Result<String, AllocError>
    ensures bytes { IfOk result (λ text. string_bytes text ≡ codes "cannot resolve " ++ quoted name.now) }
{
    let quoted = quoted_name(alloc, name)?;
    let name = quoted.as_str();
    format!(in alloc; "cannot resolve {name}")
}

/// The text of a name that leads nowhere.
fn unresolved_name(
    alloc: Global,
    path: &Path,
    place: u32,
    name: &Text,
) -> Result<String, AllocError>
    ensures bytes { IfOk result (λ text. string_bytes text ≡ unresolved_text path.now place name.now) }
{
    let words = unresolved_words(alloc, name.as_str())?;
    place_text(alloc, path, place, words.as_str())
}

/// The text of a package file that can't be read.
fn bad_package(alloc: Global, path: &Path, place: u32, file: &Path) -> Result<String, AllocError>
    ensures bytes { IfOk result (λ text. string_bytes text ≡ package_text path.now place file.now) }
{
    let mut words = String::from_str(alloc, "bad package file ")?;
    words.push_str(file.as_str())?;
    place_text(alloc, path, place, words.as_str())
}

/// A fault as one line of text, without the line's end. A fault at a place begins with `PATH:PLACE: `, where the place is
/// a byte offset from 0. In a name that leads nowhere `\` and `"` have a `\` before them, and a control character is
/// written as `\x` with two hexadecimal digits.
///
/// The one refusal is out of memory.
pub fn fault_text(alloc: Global, fault: &BuildFault) -> Result<Text, AllocError>
    ensures exact { IfOk result (λ text. text ≡ text_of fault.now) }
{
    let text = match fault {
        BuildFault::EntryMissing { path } => missing_entry(alloc, path)?,
        BuildFault::Source { path, fault } => source_fault(alloc, path, *fault)?,
        BuildFault::Unresolved { path, place, name } => unresolved_name(alloc, path, *place, name)?,
        BuildFault::Package {
            path,
            place,
            package,
        } => bad_package(alloc, path, *place, package)?,
        BuildFault::TooManyModules => String::from_str(alloc, "more than 65536 modules")?,
        BuildFault::NoMemory => String::from_str(alloc, "out of memory")?,
    };
    Ok(Text::from_string(text))
}
