//! What is found so far.
ghost use Rattle.std.specs.Prelude.{◌≡◌, ◌≤◌, ◌<◌, ◌+◌, if◌then◌else◌, OnOk};
ghost use Rattle.mt_tokens.specs.Cut.{IfThere, IsFoundCut};
ghost use Rattle.mt_tokens.specs.Deps.{is_dynamic, is_export, is_export_form};
ghost use Rattle.mt_deps.specs.Gathered.{kept, nothing, with_found, with_option};
ghost use Rattle.mt_deps.specs.Numbers.{Numbers};

use crate::numbers::{Row, number_found};
use mt_containers::List;
use mt_tokens::{Dep, DepList, Form, Found, Mark, TextMap, Use, put_marks, put_use};
use std::alloc::{AllocError, Global};

/// What is found so far, and the numbers of its dependencies.
#[derive(Drop)]
pub(crate) struct Gathering {
    pub deps: List<Dep>,
    pub uses: List<Use>,
    pub marks: List<Mark>,
    pub exporting: bool,
    pub dynamic: u32,
    pub numbers: TextMap<Row>,
}

/// How many calls this is that name no module: one or none.
fn dynamic_calls(found: &Found) -> u32
    ensures exact { result ≡ (if is_dynamic found.now then 1 else 0) }
    ensures most { result ≤ 1 }
{
    u32::from(matches!(found, Found::Dynamic))
}

fn is_form_of_export(form: &Form) -> bool
    ensures { result ≡ is_export_form form.now }
{
    !matches!(form, Form::Import { .. })
}

/// Whether this is an export.
fn is_export_found(found: &Found) -> bool
    ensures { result ≡ is_export found.now }
{
    match found {
        Found::Statement { form, .. } => is_form_of_export(form),
        Found::Require(_) | Found::ImportCall { .. } | Found::Dynamic => false,
    }
}

impl Gathering {
    /// Nothing is found yet. Takes no memory.
    #[tactic(auto, using(crate::proofs::Numbered::numbers_none))]
    pub(crate) fn new(alloc: Global) -> Gathering
        ensures kept { kept result ≡ nothing }
        ensures numbers { Numbers result.numbers result.deps }
        ensures dynamic { result.dynamic ≡ 0 }
    {
        Gathering {
            deps: List::new(alloc),
            uses: List::new(alloc),
            marks: List::new(alloc),
            exporting: false,
            dynamic: 0,
            numbers: TextMap::new(alloc),
        }
    }

    /// Adds what is found at one word.
    fn add(&mut self, alloc: Global, text: &str, found: &Found) -> Result<(), AllocError>
        requires cut { IsFoundCut text.now found.now }
        requires numbers { Numbers self.old.numbers self.old.deps }
        requires room { self.old.dynamic < u32.MAX }
        ensures kept { OnOk result (kept self.new ≡ with_found text.now (kept self.old) found.now) }
        ensures numbers { OnOk result (Numbers self.new.numbers self.new.deps) }
        ensures most { OnOk result (self.new.dynamic ≤ self.old.dynamic + 1) }
    {
        let number = number_found(&mut self.deps, &mut self.numbers, found)?;
        put_use(alloc, text, &mut self.uses, number, found)?;
        put_marks(alloc, text, &mut self.marks, found)?;
        self.exporting = self.exporting || is_export_found(found);
        self.dynamic += dynamic_calls(found);
        Ok(())
    }

    /// Adds what is found at a token, if something is.
    pub(crate) fn add_any(
        &mut self,
        alloc: Global,
        text: &str,
        found: Option<Found>,
    ) -> Result<(), AllocError>
        requires cut { IfThere (IsFoundCut text.now) found }
        requires numbers { Numbers self.old.numbers self.old.deps }
        requires room { self.old.dynamic < u32.MAX }
        ensures kept { OnOk result (kept self.new ≡ with_option text.now (kept self.old) found) }
        ensures numbers { OnOk result (Numbers self.new.numbers self.new.deps) }
        ensures most { OnOk result (self.new.dynamic ≤ self.old.dynamic + 1) }
    {
        match found {
            Some(found) => self.add(alloc, text, &found),
            None => Ok(()),
        }
    }

    /// What was found.
    pub(crate) fn into_list(self) -> DepList
        ensures { result ≡ kept self }
    {
        DepList::new(
            self.deps,
            self.uses,
            self.marks,
            self.exporting,
            self.dynamic,
        )
    }
}
