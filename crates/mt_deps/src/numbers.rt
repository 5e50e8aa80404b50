//! The numbers of dependencies, by name and kind.
ghost use Rattle.std.specs.Prelude.{◌≡◌, IfOk, OnOk, Some, unwrap_or};
ghost use Rattle.std.specs.FinMap as map;
ghost use Rattle.mt_tokens.specs.Deps.{dependency, dependency_of, form_dependency, number_in, with_first};
ghost use Rattle.mt_deps.specs.Numbers.{Numbers, added, at_kind, no_row, with_kind};

use mt_containers::List;
use mt_tokens::{Dep, DepKind, Form, Found, Named, Text, TextMap};
use std::alloc::AllocError;

/// The numbers of one name, by kind.
#[derive(Clone, Copy)]
pub(crate) struct Row {
    pub require: Option<usize>,
    pub import: Option<usize>,
    pub import_call: Option<usize>,
}

impl Row {
    /// The number of a kind.
    fn of(self, kind: DepKind) -> Option<usize>
        ensures { result ≡ at_kind self kind }
    {
        match kind {
            DepKind::Require => self.require,
            DepKind::Import => self.import,
            DepKind::ImportCall => self.import_call,
        }
    }

    /// The same numbers, and this one of a kind.
    fn with(self, kind: DepKind, number: usize) -> Row
        ensures { result ≡ with_kind self kind number }
    {
        match kind {
            DepKind::Require => Row {
                require: Some(number),
                ..self
            },
            DepKind::Import => Row {
                import: Some(number),
                ..self
            },
            DepKind::ImportCall => Row {
                import_call: Some(number),
                ..self
            },
        }
    }
}

/// The numbers of a name.
fn row_at(numbers: &TextMap<Row>, name: &Text) -> Row
    ensures { result ≡ unwrap_or (map.get numbers.now name.now) no_row }
{
    match numbers.get(name) {
        Some(row) => *row,
        None => Row {
            require: None,
            import: None,
            import_call: None,
        },
    }
}

/// The number of a module among the dependencies, to which it is added if its name is new in this kind.
fn number(
    deps: &mut List<Dep>,
    numbers: &mut TextMap<Row>,
    kind: DepKind,
    named: &Named,
) -> Result<usize, AllocError>
    requires { Numbers numbers.old deps.old }
    ensures deps { OnOk result (deps.new ≡ with_first deps.old (dependency kind named.now)) }
    ensures numbers { OnOk result (Numbers numbers.new deps.new) }
    ensures number { IfOk result (λ n. n ≡ number_in deps.new (Some (dependency kind named.now))) }
{
    let row = row_at(numbers, &named.name);
    if let Some(number) = row.of(kind) {
        return Ok(number);
    }
    let number = deps.len();
    let name = named.name.clone()?;
    let key = named.name.clone()?;
    let place = named.string.start;
    deps.push(Dep { name, kind, place })?;
    numbers.insert(key, row.with(kind, number))?;
    Ok(number)
}

/// The number of a form's module, which is added if it is new; 0 where the form names none.
fn number_form(
    deps: &mut List<Dep>,
    numbers: &mut TextMap<Row>,
    form: &Form,
) -> Result<usize, AllocError>
    requires { Numbers numbers.old deps.old }
    ensures deps { OnOk result (deps.new ≡ added deps.old (form_dependency form.now)) }
    ensures numbers { OnOk result (Numbers numbers.new deps.new) }
    ensures number { IfOk result (λ n. n ≡ number_in deps.new (form_dependency form.now)) }
{
    match form {
        Form::Import { named, .. } => number(deps, numbers, DepKind::Import, named),
        Form::ExportFrom { named, .. } => number(deps, numbers, DepKind::Import, named),
        Form::ExportList { .. } | Form::ExportDefault { .. } | Form::ExportDeclared { .. } => Ok(0),
    }
}

/// The number of the module of what is found, which is added if it is new; 0 where it names none.
pub(crate) fn number_found(
    deps: &mut List<Dep>,
    numbers: &mut TextMap<Row>,
    found: &Found,
) -> Result<usize, AllocError>
    requires { Numbers numbers.old deps.old }
    ensures deps { OnOk result (deps.new ≡ added deps.old (dependency_of found.now)) }
    ensures numbers { OnOk result (Numbers numbers.new deps.new) }
    ensures number { IfOk result (λ n. n ≡ number_in deps.new (dependency_of found.now)) }
{
    match found {
        Found::Require(named) => number(deps, numbers, DepKind::Require, named),
        Found::ImportCall { named, .. } => number(deps, numbers, DepKind::ImportCall, named),
        Found::Dynamic => Ok(0),
        Found::Statement { form, .. } => number_form(deps, numbers, form),
    }
}
