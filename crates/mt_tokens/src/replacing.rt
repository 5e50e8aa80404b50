//! What takes the place of imports and exports.
ghost use Rattle.std.specs.Prelude.{◌≡◌, ◌++◌, OnOk, Some, codes};
ghost use Rattle.std.specs.List.{flat_map};
ghost use Rattle.mt_tokens.specs.Replacements.{bound_text, default_text, defaulted, export_all_text, export_from_text, form_text, import_call_text, import_text, item_text, list_text, map_entry, only_required, property, required, set_begin, set_to, whole};

use crate::{Bound, Form, Item, Token, is_word_token, token_bytes};
use mt_containers::Bytes;
use std::alloc::{AllocError, Global};

/// A module that a text names, by its number among the dependencies of the text.
#[derive(Clone, Copy)]
pub(crate) struct Module<'t> {
    pub alloc: Global,
    pub text: &'t str,
    pub number: usize,
}

impl Module<'_> {
    /// `dependencyMap[i]`.
    pub(crate) fn put_map_entry(&self, out: &mut Bytes) -> Result<(), AllocError>
        ensures { OnOk result (out.new ≡ out.old ++ map_entry self.now.number) }
    {
        let number = self.number;
        let entry = format!(in self.alloc; "dependencyMap[{number}]")?;
        out.extend(entry.as_bytes())
    }

    /// `dependencyMap[i]` between two words.
    fn put_between(&self, out: &mut Bytes, before: &[u8], after: &[u8]) -> Result<(), AllocError>
        ensures { OnOk result (out.new ≡ out.old ++ (before.now ++ map_entry self.now.number ++ after.now)) }
    {
        out.extend(before)?;
        self.put_map_entry(out)?;
        out.extend(after)?;
        Ok(())
    }

    /// `Promise.resolve(dependencyMap[i]).then(importAll)`.
    pub(crate) fn put_import_call(&self, out: &mut Bytes) -> Result<(), AllocError>
        ensures { OnOk result (out.new ≡ out.old ++ import_call_text self.now.number) }
    {
        self.put_between(out, b"Promise.resolve(", b").then(importAll)")
    }

    /// `require(dependencyMap[i])`.
    fn put_required(&self, out: &mut Bytes) -> Result<(), AllocError>
        ensures { OnOk result (out.new ≡ out.old ++ required self.now.number) }
    {
        self.put_between(out, b"require(", b")")
    }

    /// `require(dependencyMap[i]);`.
    fn put_only_required(&self, out: &mut Bytes) -> Result<(), AllocError>
        ensures { OnOk result (out.new ≡ out.old ++ only_required self.now.number) }
    {
        self.put_required(out)?;
        out.extend(b";")
    }

    /// `importDefault(dependencyMap[i])`.
    fn put_defaulted(&self, out: &mut Bytes) -> Result<(), AllocError>
        ensures { OnOk result (out.new ≡ out.old ++ defaulted self.now.number) }
    {
        self.put_between(out, b"importDefault(", b")")
    }

    /// What a module has by a name: its default, or a property.
    fn put_property(&self, out: &mut Bytes, name: Token) -> Result<(), AllocError>
        ensures { OnOk result (out.new ≡ out.old ++ property self.now.text.now self.now.number name) }
    {
        let bytes = self.text.as_bytes();
        if is_word_token(bytes, b"default", name) {
            return self.put_defaulted(out);
        }
        self.put_required(out)?;
        out.extend(b".")?;
        out.extend(token_bytes(bytes, name))
    }

    /// `var n = ` or `exports.n = `.
    fn put_target(&self, out: &mut Bytes, target: &[u8], name: Token) -> Result<(), AllocError>
        ensures { OnOk result (out.new ≡ out.old ++ set_begin self.now.text.now target.now name) }
    {
        out.extend(target)?;
        out.extend(token_bytes(self.text.as_bytes(), name))?;
        out.extend(b" = ")
    }

    /// One item of a list.
    fn put_item(&self, out: &mut Bytes, target: &[u8], item: Item) -> Result<(), AllocError>
        ensures { OnOk result (out.new ≡ out.old ++ item_text self.now.text.now target.now self.now.number item) }
    {
        self.put_target(out, target, item.other)?;
        self.put_property(out, item.name)?;
        out.extend(b";")
    }

    /// The texts of items, each after a blank.
    fn put_more(&self, out: &mut Bytes, target: &[u8], items: &[Item]) -> Result<(), AllocError>
        ensures { OnOk result (out.new ≡ out.old ++ flat_map (λ more. codes " " ++ item_text self.now.text.now target.now self.now.number more) items.now) }
    {
        let mut rest = items;
        while let Some((item, more)) = rest.split_first() {
            out.extend(b" ")?;
            self.put_item(out, target, *item)?;
            rest = more;
        }
        Ok(())
    }

    /// The texts of a list's items, or the module alone where there is no item.
    fn put_list(&self, out: &mut Bytes, target: &[u8], items: &[Item]) -> Result<(), AllocError>
        ensures { OnOk result (out.new ≡ out.old ++ list_text self.now.text.now target.now self.now.number items.now) }
    {
        let Some((first, more)) = items.split_first() else {
            return self.put_only_required(out);
        };
        self.put_item(out, target, *first)?;
        self.put_more(out, target, more)
    }

    /// `importAll(dependencyMap[i])`.
    fn put_whole(&self, out: &mut Bytes) -> Result<(), AllocError>
        ensures { OnOk result (out.new ≡ out.old ++ whole self.now.number) }
    {
        self.put_between(out, b"importAll(", b")")
    }

    /// `var n = ` or `exports.n = ` and the whole of the module.
    fn put_all(&self, out: &mut Bytes, target: &[u8], name: Token) -> Result<(), AllocError>
        ensures { OnOk result (out.new ≡ out.old ++ set_to self.now.text.now target.now name (whole self.now.number)) }
    {
        self.put_target(out, target, name)?;
        self.put_whole(out)?;
        out.extend(b";")
    }

    /// What a statement takes of the module, beside its default.
    fn put_bound(&self, out: &mut Bytes, target: &[u8], bound: &Bound) -> Result<(), AllocError>
        ensures { OnOk result (out.new ≡ out.old ++ bound_text self.now.text.now target.now self.now.number bound.now) }
    {
        match bound {
            Bound::Nothing => self.put_only_required(out),
            Bound::All(name) => self.put_all(out, target, *name),
            Bound::Listed(items) => self.put_list(out, target, items.as_slice()),
        }
    }

    /// `var d = ` and the default of the module.
    fn put_default(&self, out: &mut Bytes, name: Token) -> Result<(), AllocError>
        ensures { OnOk result (out.new ≡ out.old ++ default_text self.now.text.now self.now.number name) }
    {
        self.put_target(out, b"var ", name)?;
        self.put_defaulted(out)?;
        out.extend(b";")
    }

    /// What takes the place of an import that names the default.
    fn put_both(&self, out: &mut Bytes, name: Token, bound: &Bound) -> Result<(), AllocError>
        ensures { OnOk result (out.new ≡ out.old ++ import_text self.now.text.now self.now.number (Some name) bound.now) }
    {
        self.put_default(out, name)?;
        match bound {
            Bound::Nothing => Ok(()),
            Bound::All(_) | Bound::Listed(_) => {
                out.extend(b" ")?;
                self.put_bound(out, b"var ", bound)
            }
        }
    }

    /// `__exportAll(exports, require(dependencyMap[i]));`.
    fn put_export_all(&self, out: &mut Bytes) -> Result<(), AllocError>
        ensures { OnOk result (out.new ≡ out.old ++ export_all_text self.now.number) }
    {
        out.extend(b"__exportAll(exports, ")?;
        self.put_required(out)?;
        out.extend(b");")?;
        Ok(())
    }

    /// What takes the place of an export of what the module has.
    fn put_export_from(&self, out: &mut Bytes, bound: &Bound) -> Result<(), AllocError>
        ensures { OnOk result (out.new ≡ out.old ++ export_from_text self.now.text.now self.now.number bound.now) }
    {
        match bound {
            Bound::Nothing => self.put_export_all(out),
            Bound::All(_) | Bound::Listed(_) => self.put_bound(out, b"exports.", bound),
        }
    }

    /// What takes the place of a form that names the module, or none.
    pub(crate) fn put_form(&self, out: &mut Bytes, form: &Form) -> Result<(), AllocError>
        ensures { OnOk result (out.new ≡ out.old ++ form_text self.now.text.now self.now.number form.now) }
    {
        match form {
            Form::Import {
                default: None,
                bound,
                ..
            } => self.put_bound(out, b"var ", bound),
            Form::Import {
                default: Some(name),
                bound,
                ..
            } => self.put_both(out, *name, bound),
            Form::ExportFrom { bound, .. } => self.put_export_from(out, bound),
            Form::ExportDefault { local: None, .. } => out.extend(b"exports.default ="),
            Form::ExportDefault { local: Some(_), .. }
            | Form::ExportList { .. }
            | Form::ExportDeclared { .. } => Ok(()),
        }
    }
}
