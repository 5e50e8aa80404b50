//! A folder of modules, and a script that edits them.
ghost use Rattle.std.specs.Prelude.{◌≡◌, ◌≤◌, ◌<◌, ◌++◌, IfOk, OnOk};
ghost use Rattle.std.specs.List.{All};
ghost use Rattle.mt_script.specs.Commands.{IsCommand};
ghost use Rattle.mt_generator.specs.Growths.{AreSources, edits_grown, files_grown, grown, with_edit, with_module};

use crate::draws::Draws;
use crate::module::{module_path, module_text};
use mt_containers::List;
use mt_path::PathMap;
use mt_script::Command;
use mt_tokens::Bytes;
use std::alloc::{AllocError, Global};

/// A folder of modules, and a script that edits them.
#[derive(Drop)]
pub struct Growth {
    /// The text of each module, by its path.
    pub files: PathMap<Bytes>,
    /// The commands of the script. The last is `end`.
    pub commands: List<Command>,
}

/// Puts the module with a number into a folder, with a drawn text.
fn put_module(
    alloc: Global,
    files: &mut PathMap<Bytes>,
    draws: &mut Draws,
    modules: u32,
    number: u32,
) -> Result<(), AllocError>
    requires there { number < modules }
    ensures files { OnOk result (files.new ≡ (with_module modules number (files.old, draws.old.state)).0) }
    ensures state { OnOk result (draws.new.state ≡ (with_module modules number (files.old, draws.old.state)).1) }
{
    let path = module_path(alloc, number)?;
    let text = module_text(alloc, draws, modules, number, true)?;
    files.insert(path, text)?;
    Ok(())
}

/// The folder of all modules.
fn grow_files(alloc: Global, draws: &mut Draws, modules: u32) -> Result<PathMap<Bytes>, AllocError>
    ensures files { IfOk result (λ files. files ≡ (files_grown draws.old.state modules).0) }
    ensures state { OnOk result (draws.new.state ≡ (files_grown draws.old.state modules).1) }
{
    let mut files = PathMap::new(alloc);
    for number in 0..modules {
        put_module(alloc, &mut files, draws, modules, number)?;
    }
    Ok(files)
}

/// Adds the commands of an edit: a drawn module is put with a drawn text, and built.
fn push_edit(
    alloc: Global,
    commands: &mut List<Command>,
    draws: &mut Draws,
    modules: u32,
) -> Result<(), AllocError>
    requires some { 0 < modules }
    ensures commands { OnOk result (commands.new ≡ (with_edit modules (commands.old, draws.old.state)).0) }
    ensures state { OnOk result (draws.new.state ≡ (with_edit modules (commands.old, draws.old.state)).1) }
{
    let number = draws.below(modules);
    let chained = draws.below(2) == 1;
    let path = module_path(alloc, number)?;
    let text = module_text(alloc, draws, modules, number, chained)?;
    commands.push(Command::Put(path, text))?;
    commands.push(Command::Build)?;
    Ok(())
}

/// The commands of all edits.
fn grow_edits(
    alloc: Global,
    draws: &mut Draws,
    modules: u32,
    edits: u32,
) -> Result<List<Command>, AllocError>
    requires some { 0 < modules }
    ensures commands { IfOk result (λ commands. commands ≡ (edits_grown draws.old.state modules edits).0) }
{
    let mut commands = List::new(alloc);
    for _ in 0..edits {
        push_edit(alloc, &mut commands, draws, modules)?;
    }
    Ok(commands)
}

/// A folder of modules and a script of edits, both made from a seed. Refused only where memory runs out.
pub fn grow(alloc: Global, seed: u64, modules: u32, edits: u32) -> Result<Growth, AllocError>
    requires some { 1 ≤ modules }
    requires few { modules ≤ 50000 }
    requires edits { edits ≤ 10000 }
    ensures files { IfOk result (λ g. g.files ≡ (grown seed modules edits).files) }
    ensures commands { IfOk result (λ g. g.commands ≡ (grown seed modules edits).commands) }
    ensures small { IfOk result (λ g. AreSources g.files) }
    ensures script { IfOk result (λ g. All IsCommand g.commands) }
{
    let mut draws = Draws::from_seed(seed);
    let files = grow_files(alloc, &mut draws, modules)?;
    let mut commands = grow_edits(alloc, &mut draws, modules, edits)?;
    commands.push(Command::End)?;
    Ok(Growth { files, commands })
}
