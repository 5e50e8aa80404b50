//! The ranges of a text that are replaced.
ghost use Rattle.std.specs.Prelude.{◌≡◌, ◌++◌, ◌<◌, ◌^◌, IfOk, IsUtf8, OnOk, option_to_list};
ghost use Rattle.mt_tokens.specs.Cut.{IsFormCut, IsFoundCut};
ghost use Rattle.mt_tokens.specs.Deps.{form_end, use_of};
ghost use Rattle.mt_tokens.specs.Replacements.{form_text, import_call_text, map_entry};

use crate::replacing::Module;
use crate::{Form, Found, Named, Token, Use};
use mt_containers::{Bytes, List, Text};
use std::alloc::{AllocError, Global};

/// The text of bytes that are UTF-8.
fn text_of(bytes: Bytes) -> Text
    requires { IsUtf8 bytes }
    ensures { result ≡ bytes }
{
    match String::from_utf8(bytes.into_vec()) {
        Ok(string) => Text::from_string(string),
        Err(_) => unreachable!(),
    }
}

/// The place after what a form replaces that begins with this word.
fn end_of_form(word: Token, form: &Form) -> u32
    ensures { result ≡ form_end word form.now }
{
    match form {
        Form::Import { named, .. } => named.end,
        Form::ExportFrom { named, .. } => named.end,
        Form::ExportList { end, .. } => *end,
        Form::ExportDefault { end, .. } => *end,
        Form::ExportDeclared { .. } => word.end,
    }
}

impl Module<'_> {
    /// The number of the module takes the place of its string in a call of `require`.
    fn required_use(&self, named: &Named) -> Result<Use, AllocError>
        requires fits { self.now.number < 2 ^ 64 }
        ensures { IfOk result (λ u. u ≡ record { start = named.now.string.start; end = named.now.string.end; text = map_entry self.now.number }) }
    {
        let mut out = Bytes::new(self.alloc);
        self.put_map_entry(&mut out)?;
        let text = text_of(out);
        let Token { start, end, .. } = named.string;
        Ok(Use { start, end, text })
    }

    /// What takes the place of a call of `import`.
    fn call_use(&self, word: Token, named: &Named) -> Result<Use, AllocError>
        requires fits { self.now.number < 2 ^ 64 }
        ensures { IfOk result (λ u. u ≡ record { start = word.start; end = named.now.end; text = import_call_text self.now.number }) }
    {
        let mut out = Bytes::new(self.alloc);
        self.put_import_call(&mut out)?;
        let text = text_of(out);
        let start = word.start;
        let end = named.end;
        Ok(Use { start, end, text })
    }

    /// What takes the place of a statement.
    fn statement_use(&self, word: Token, form: &Form) -> Result<Use, AllocError>
        requires utf8 { IsUtf8 self.now.text.now }
        requires fits { self.now.number < 2 ^ 64 }
        requires cut { IsFormCut self.now.text.now form.now }
        ensures { IfOk result (λ u. u ≡ record { start = word.start; end = form_end word form.now; text = form_text self.now.text.now self.now.number form.now }) }
    {
        let mut out = Bytes::new(self.alloc);
        self.put_form(&mut out, form)?;
        let start = word.start;
        let end = end_of_form(word, form);
        let text = text_of(out);
        Ok(Use { start, end, text })
    }

    /// What takes the place of what is found, if something does.
    fn use_found(&self, found: &Found) -> Result<Option<Use>, AllocError>
        requires utf8 { IsUtf8 self.now.text.now }
        requires fits { self.now.number < 2 ^ 64 }
        requires cut { IsFoundCut self.now.text.now found.now }
        ensures { IfOk result (λ u. u ≡ use_of self.now.text.now self.now.number found.now) }
    {
        match found {
            Found::Require(named) => Ok(Some(self.required_use(named)?)),
            Found::ImportCall { word, named } => Ok(Some(self.call_use(*word, named)?)),
            Found::Dynamic => Ok(None),
            Found::Statement { word, form } => Ok(Some(self.statement_use(*word, form)?)),
        }
    }
}

/// Adds what takes the place of what is found, if something does. The module that it names has this number.
pub fn put_use(
    alloc: Global,
    text: &str,
    uses: &mut List<Use>,
    number: usize,
    found: &Found,
) -> Result<(), AllocError>
    requires cut { IsFoundCut text.now found.now }
    ensures uses { OnOk result (uses.new ≡ uses.old ++ option_to_list (use_of text.now number found.now)) }
{
    let module = Module {
        alloc,
        text,
        number,
    };
    if let Some(one) = module.use_found(found)? {
        uses.push(one)?;
    }
    Ok(())
}
