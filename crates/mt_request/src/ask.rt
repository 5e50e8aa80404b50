//! What builds are asked for.
ghost use Rattle.std.specs.Prelude.{◌≡◌, [], ◌∷◌, IfOk, codes};
ghost use Rattle.std.specs.List.{filter_map};
ghost use Rattle.mt_request.specs.Asks.{AreEntries, build_ask, grown_ask};
ghost use Rattle.mt_words.specs.Entries.{entry_of};

use crate::values::read_options;
use mt_package::Options;
use mt_path::{Path, PathList};
use mt_tokens::Text;
use mt_words::read_entry;
use std::alloc::{AllocError, Global};
use std::marker::Model;

/// The options of builds, and their entries: 1 to 16 paths, each once, of which none is the root.
#[derive(Drop)]
pub struct BuildAsk {
    options: Options,
    entries: PathList,
}

impl Model for BuildAsk {
    ghost use Rattle.mt_files.specs.Asks.{Ask};
    ghost use Rattle.mt_request.specs.Asks.{AreEntries};

    ghost Value = { Ask };

    ghost view = { λ a. record { options = a.options; entries = a.entries } };

    ghost invariant = { λ a. AreEntries a.entries };
}

/// The entry of an input that is grown.
fn grown_entry(alloc: Global) -> Result<Path, AllocError>
    ensures entry { IfOk result (λ entry. entry ≡ codes "/m0.js") }
{
    match Path::parse(alloc, "/m0.js") {
        Ok(entry) => Ok(entry),
        Err(_) => Err(AllocError),
    }
}

/// The paths of the entries that the words name.
fn read_entries(alloc: Global, words: &[Text]) -> Result<PathList, AllocError>
    ensures entries { IfOk result (λ entries. entries ≡ filter_map entry_of words.now) }
{
    let mut entries = PathList::new(alloc);
    for word in words {
        if let Some(entry) = read_entry(alloc, word.as_str())? {
            entries.push(entry)?;
        }
    }
    Ok(entries)
}

impl BuildAsk {
    /// What is asked for of these entries under these options. Takes no memory.
    pub(crate) fn new(options: Options, entries: PathList) -> BuildAsk
        requires entries { AreEntries entries }
        ensures options { result.options ≡ options }
        ensures entries { result.entries ≡ entries }
    {
        BuildAsk { options, entries }
    }

    /// What is asked for by the positionals and the options of a command that builds.
    pub(crate) fn read(
        alloc: Global,
        words: &[Text],
        options: &[(Text, Text)],
    ) -> Result<BuildAsk, AllocError>
        requires entries { AreEntries (filter_map entry_of words.now) }
        ensures ask { IfOk result (λ ask. ask ≡ build_ask words.now options.now) }
    {
        let options = read_options(alloc, options)?;
        let entries = read_entries(alloc, words)?;
        Ok(BuildAsk::new(options, entries))
    }

    /// What is asked for of an input that is grown.
    #[tactic(auto, using(crate::proofs::Entries::grown_fits))]
    pub(crate) fn grown(alloc: Global) -> Result<BuildAsk, AllocError>
        ensures ask { IfOk result (λ ask. ask ≡ grown_ask) }
    {
        let options = Options::standard(alloc)?;
        let mut entries = PathList::new(alloc);
        entries.push(grown_entry(alloc)?)?;
        Ok(BuildAsk::new(options, entries))
    }

    /// The options.
    pub fn options(&self) -> &Options
        ensures options { result.now ≡ self.now.options }
    {
        &self.options
    }

    /// The entries.
    pub fn entries(&self) -> &[Path]
        ensures entries { result.now ≡ self.now.entries }
        ensures are { AreEntries self.now.entries }
    {
        self.entries.as_slice()
    }
}
