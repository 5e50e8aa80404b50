//! The names that a text exports.
ghost use Rattle.std.specs.Prelude.{◌≡◌, ◌++◌, ◌∷◌, [], map, OnOk};
ghost use Rattle.std.specs.List.{AllByRecursion};
ghost use Rattle.mt_tokens.specs.Cut.{AreCut, IsFormCut, IsFoundCut, IsItemCut};
ghost use Rattle.mt_tokens.specs.Deps.{marks_at};
ghost use Rattle.mt_tokens.specs.Replacements.{item_mark, marks_of, name_mark};

use crate::{Form, Found, Item, Mark, Token, token_text};
use mt_containers::{List, Text};
use std::alloc::{AllocError, Global};

/// A text of which names are exported.
#[derive(Clone, Copy)]
struct Exporting<'t> {
    alloc: Global,
    text: &'t str,
}

impl Exporting<'_> {
    /// Adds the mark of a name and of what it is in the text.
    fn put_mark(&self, marks: &mut List<Mark>, name: &str, local: &str) -> Result<(), AllocError>
        ensures { OnOk result (marks.new ≡ marks.old ++ record { name = name.now; local = local.now } ∷ []) }
    {
        let name = Text::from_str(self.alloc, name)?;
        let local = Text::from_str(self.alloc, local)?;
        marks.push(Mark { name, local })
    }

    /// Adds the marks of a list's items.
    fn put_items(&self, marks: &mut List<Mark>, items: &[Item]) -> Result<(), AllocError>
        requires { AllByRecursion (IsItemCut self.now.text.now) items.now }
        ensures { OnOk result (marks.new ≡ marks.old ++ map (item_mark self.now.text.now) items.now) }
    {
        let mut rest = items;
        while let Some((item, more)) = rest.split_first() {
            let name = token_text(self.text, item.other);
            let local = token_text(self.text, item.name);
            self.put_mark(marks, name, local)?;
            rest = more;
        }
        Ok(())
    }

    /// Adds the marks of names that are declared.
    fn put_names(&self, marks: &mut List<Mark>, names: &[Token]) -> Result<(), AllocError>
        requires { AreCut self.now.text.now names.now }
        ensures { OnOk result (marks.new ≡ marks.old ++ map (name_mark self.now.text.now) names.now) }
    {
        let mut rest = names;
        while let Some((name, more)) = rest.split_first() {
            let name = token_text(self.text, *name);
            self.put_mark(marks, name, name)?;
            rest = more;
        }
        Ok(())
    }

    /// Adds the marks of a form.
    fn put_form(&self, marks: &mut List<Mark>, form: &Form) -> Result<(), AllocError>
        requires { IsFormCut self.now.text.now form.now }
        ensures { OnOk result (marks.new ≡ marks.old ++ marks_of self.now.text.now form.now) }
    {
        match form {
            Form::Import { .. } | Form::ExportFrom { .. } => Ok(()),
            Form::ExportList { items, .. } => self.put_items(marks, items.as_slice()),
            Form::ExportDefault { local: None, .. } => Ok(()),
            Form::ExportDefault {
                local: Some(local),
                ..
            } => self.put_mark(marks, "default", token_text(self.text, *local)),
            Form::ExportDeclared { names } => self.put_names(marks, names.as_slice()),
        }
    }
}

/// Adds the marks of the names that what is found exports.
pub fn put_marks(
    alloc: Global,
    text: &str,
    marks: &mut List<Mark>,
    found: &Found,
) -> Result<(), AllocError>
    requires cut { IsFoundCut text.now found.now }
    ensures marks { OnOk result (marks.new ≡ marks.old ++ marks_at text.now found.now) }
{
    let exporting = Exporting { alloc, text };
    match found {
        Found::Statement { form, .. } => exporting.put_form(marks, form),
        Found::Require(_) | Found::ImportCall { .. } | Found::Dynamic => Ok(()),
    }
}
