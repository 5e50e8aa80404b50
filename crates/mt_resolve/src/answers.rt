//! Where names lead, as far as it is known.
ghost use Rattle.std.specs.Prelude.{◌≡◌, Some, option_copied, OnOk};
ghost use Rattle.std.specs.List.{AllByRecursion};
ghost use Rattle.mt_files.specs.Resolve.{resolved_in};
ghost use Rattle.mt_files.specs.Snapshots.{Snapshot};
ghost use Rattle.mt_package.specs.declared.options.Options.{Options};
ghost use Rattle.mt_resolve.specs.Known.{AreKnown, AreKnownFrom, LeadsTo, known_at};

use mt_containers::{Shared, Text, TextMap};
use mt_files::Target;
use mt_path::{Path, PathMap};
use std::alloc::{AllocError, Global};

/// Where names lead, by the folder of the module and the name.
pub(crate) type AnswerMap = PathMap<TextMap<Shared<Target>>>;

/// Where a name leads from a folder, if it is known.
pub(crate) fn known_answer<'m>(
    answers: &'m AnswerMap,
    folder: &Path,
    name: &Text,
) -> Option<&'m Shared<Target>>
    ensures exact { option_copied result ≡ known_at answers.now folder.now name.now }
{
    match answers.get(folder) {
        Some(names) => names.get(name),
        None => None,
    }
}

/// Takes out what is known of names from a folder.
fn take_names(alloc: Global, answers: &mut AnswerMap, folder: &Path) -> TextMap<Shared<Target>>
    ensures names { (options : Options) (files : Snapshot) → AreKnown options files answers.old → AreKnownFrom options files folder.now result }
    ensures rest { (options : Options) (files : Snapshot) → AreKnown options files answers.old → AreKnown options files answers.new }
{
    match answers.remove(folder) {
        Some(names) => names,
        None => TextMap::new(alloc),
    }
}

/// Keeps where a name leads from a folder.
fn keep_answer(
    alloc: Global,
    answers: &mut AnswerMap,
    folder: &Path,
    name: &Text,
    target: &Shared<Target>,
) -> Result<(), AllocError>
    ensures kept { OnOk result (known_at answers.new folder.now name.now ≡ Some target.now) }
    ensures known { (options : Options) (files : Snapshot) → AreKnown options files answers.old → LeadsTo options files name.now target.now folder.now → AreKnown options files answers.new }
{
    let key = folder.clone()?;
    let text = name.clone()?;
    let answer = target.clone()?;
    let mut names = take_names(alloc, answers, folder);
    names.insert(text, answer)?;
    answers.insert(key, names)?;
    Ok(())
}

/// Keeps where a name leads from each of these folders.
pub(crate) fn keep_answers(
    alloc: Global,
    answers: &mut AnswerMap,
    folders: &[Path],
    name: &Text,
    target: &Shared<Target>,
) -> Result<(), AllocError>
    ensures known { (options : Options) (files : Snapshot) → AreKnown options files answers.old
        → AllByRecursion (LeadsTo options files name.now target.now) folders.now → AreKnown options files answers.new }
{
    for folder in folders {
        keep_answer(alloc, answers, folder, name, target)?;
    }
    Ok(())
}
