//! The path and the text of a module.
ghost use Rattle.std.specs.Prelude.{◌≡◌, ◌≤◌, ◌<◌, ◌+◌, ◌++◌, length, IfOk, OnOk};
ghost use Rattle.mt_path.specs.Parse.{IsPath};
ghost use Rattle.mt_generator.specs.Modules.{chain_line, module_drawn, module_path, names_drawn, require_line, value_line};

use crate::draws::Draws;
use mt_path::Path;
use mt_tokens::Bytes;
use std::alloc::{AllocError, Global};

/// The path of the module with a number. Refused only where memory runs out.
#[tactic(auto, using(crate::proofs::ModulePaths::is_path))]
pub(crate) fn module_path(alloc: Global, number: u32) -> Result<Path, AllocError>
    ensures path { IfOk result (λ path. path ≡ module_path number) }
    ensures is_path { IsPath (module_path number) }
{
    let text = format!(in alloc; "/m{number}.js")?;
    match Path::parse(alloc, text.as_str()) {
        Ok(path) => Ok(path),
        Err(_) => Err(AllocError),
    }
}

/// Adds the line that requires the module with a number.
fn push_require(alloc: Global, text: &mut Bytes, number: u32) -> Result<(), AllocError>
    ensures ok { OnOk result (text.new ≡ text.old ++ require_line number) }
{
    let line = format!(in alloc; "require(\"./m{number}.js\");\n")?;
    text.extend(line.as_bytes())
}

/// Adds the line that gives a value.
fn push_value(alloc: Global, text: &mut Bytes, value: u32) -> Result<(), AllocError>
    ensures ok { OnOk result (text.new ≡ text.old ++ value_line value) }
{
    let line = format!(in alloc; "exports.v = {value};\n")?;
    text.extend(line.as_bytes())
}

/// Adds the line that requires the next module, where the module is chained and there is one.
fn push_chain(
    alloc: Global,
    text: &mut Bytes,
    modules: u32,
    number: u32,
    chained: bool,
) -> Result<(), AllocError>
    requires there { number < modules }
    ensures ok { OnOk result (text.new ≡ text.old ++ chain_line modules number chained) }
{
    if chained && number + 1 < modules {
        push_require(alloc, text, number + 1)
    } else {
        Ok(())
    }
}

/// Adds lines that each require a drawn module: how many is drawn first.
fn push_drawn(
    alloc: Global,
    text: &mut Bytes,
    modules: u32,
    draws: &mut Draws,
) -> Result<(), AllocError>
    requires some { 0 < modules }
    ensures ok { OnOk result (text.new ≡ text.old ++ (names_drawn draws.old.state modules).0) }
    ensures state { OnOk result (draws.new.state ≡ (names_drawn draws.old.state modules).1) }
{
    let count = draws.below(3);
    for _ in 0..count {
        push_require(alloc, text, draws.below(modules))?;
    }
    Ok(())
}

/// The text of the module with a number, drawn.
#[tactic(auto, unfolding(crate::specs::Modules::module_drawn))]
pub(crate) fn module_text(
    alloc: Global,
    draws: &mut Draws,
    modules: u32,
    number: u32,
    chained: bool,
) -> Result<Bytes, AllocError>
    requires there { number < modules }
    ensures text { IfOk result (λ text. text ≡ (module_drawn draws.old.state modules number chained).0) }
    ensures state { OnOk result (draws.new.state ≡ (module_drawn draws.old.state modules number chained).1) }
{
    let mut text = Bytes::new(alloc);
    push_chain(alloc, &mut text, modules, number, chained)?;
    push_drawn(alloc, &mut text, modules, draws)?;
    push_value(alloc, &mut text, draws.below(1_000_000))?;
    Ok(text)
}
