//! The front of a line: what the words say that were read so far.
ghost use Rattle.std.specs.Prelude.{◌≡◌, [], ◌∷◌, ◌++◌, Some, None, true, false, IfOk};
ghost use Rattle.mt_words.specs.Fronts.{is_build, is_whole, new_entry, new_kind, front_after, start, with_bare, with_joined, with_name, with_option, with_positional, with_spelled, with_value, with_word};
ghost use Rattle.mt_words.specs.Entries.{rooted};
ghost use Rattle.mt_words.specs.Words.{words_in};

use crate::entry::read_entry;
use crate::table::{MAX_ENTRIES, Usage, amount};
use crate::value::{ValueKind, is_odd_word};
use crate::words::Words;
use mt_containers::List;
use mt_path::{Path, PathSet};
use mt_tokens::{Text, TextList, TextMap};
use std::alloc::{AllocError, Global};
use std::marker::Model;

/// Options in a row, each a name and a value. A flag has the empty value.
pub type OptionList = List<(Text, Text)>;

/// What the words after the command say.
#[derive(Drop)]
pub(crate) struct Front {
    /// How the command is used.
    usage: Usage,
    positionals: TextList,
    /// The paths of the positionals, where these are entries.
    entries: PathSet,
    options: OptionList,
    /// The names of the options.
    given: TextMap<()>,
    /// An option whose value is the next word.
    waiting: Option<(Text, ValueKind)>,
}

impl Model for Front {
    ghost use Rattle.mt_words.specs.Fronts.{entries as entry_paths, names};
    ghost use Rattle.mt_words.specs.Fronts as fronts;
    ghost use Rattle.mt_words.specs.Keys.{HasKeys};

    ghost Value = { fronts.Front };

    ghost view = { λ f. record { usage = f.usage; positionals = f.positionals; options = f.options; waiting = f.waiting } };

    ghost invariant = { λ f. HasKeys f.entries (entry_paths f.usage f.positionals) × HasKeys f.given (names f.options) };
}

impl Front {
    /// The front with no word after the command. Takes no memory.
    pub(crate) fn new(alloc: Global, usage: Usage) -> Front
        ensures start { result ≡ start usage }
    {
        Front {
            usage,
            positionals: TextList::new(alloc),
            entries: PathSet::new(alloc),
            options: OptionList::new(alloc),
            given: TextMap::new(alloc),
            waiting: None,
        }
    }

    /// The kind of an option that the command has and that was not given before.
    fn new_kind(&self, name: &Text) -> Option<ValueKind>
        ensures kind { result ≡ new_kind self.now name.now }
    {
        if self.given.contains(name) {
            None
        } else {
            self.usage.option(name.as_str())
        }
    }

    /// The front with one more option.
    fn with_option(self, name: Text, value: Text) -> Result<Front, AllocError>
        ensures front { IfOk result (λ front. front ≡ with_option self name value) }
    {
        let Front {
            usage,
            positionals,
            entries,
            mut options,
            mut given,
            ..
        } = self;
        given.insert(name.clone()?, ())?;
        options.push((name, value))?;
        Ok(Front {
            usage,
            positionals,
            entries,
            options,
            given,
            waiting: None,
        })
    }

    /// The front with the value of an option of this kind, if it is one.
    fn with_value(
        self,
        alloc: Global,
        name: Text,
        kind: ValueKind,
        value: &str,
    ) -> Result<Option<Front>, AllocError>
        ensures front { IfOk result (λ front. front ≡ with_value self name kind value.now) }
    {
        if !kind.accepts(value) {
            return Ok(None);
        }
        let value = Text::from_str(alloc, value)?;
        let front = self.with_option(name, value)?;
        Ok(Some(front))
    }

    /// The front with an option that has no value in the same word: a flag, or one whose value is the next word.
    fn with_name(self, alloc: Global, name: Text, kind: ValueKind) -> Result<Front, AllocError>
        ensures front { IfOk result (λ front. front ≡ with_name self name kind) }
    {
        match kind {
            ValueKind::Flag => self.with_option(name, Text::new(alloc)),
            _ => Ok(self.waiting_for(name, kind)),
        }
    }

    /// The front that waits for the value of an option.
    fn waiting_for(self, name: Text, kind: ValueKind) -> Front
        ensures front { result ≡ record self { waiting = Some (name, kind) } }
    {
        let mut front = self;
        front.waiting = Some((name, kind));
        front
    }

    /// The front with the option that `--NAME=VALUE` spells.
    fn with_joined(
        self,
        alloc: Global,
        name: &str,
        value: &str,
    ) -> Result<Option<Front>, AllocError>
        ensures front { IfOk result (λ front. front ≡ with_joined self name.now value.now) }
    {
        let name = Text::from_str(alloc, name)?;
        match self.new_kind(&name) {
            None => Ok(None),
            Some(kind) => self.with_value(alloc, name, kind, value),
        }
    }

    /// The front with the option that `--NAME` spells.
    fn with_bare(self, alloc: Global, name: &str) -> Result<Option<Front>, AllocError>
        ensures front { IfOk result (λ front. front ≡ with_bare self name.now) }
    {
        let name = Text::from_str(alloc, name)?;
        match self.new_kind(&name) {
            None => Ok(None),
            Some(kind) => {
                let front = self.with_name(alloc, name, kind)?;
                Ok(Some(front))
            }
        }
    }

    /// The front with the option that stands after `--`.
    fn with_spelled(self, alloc: Global, text: &str) -> Result<Option<Front>, AllocError>
        ensures front { IfOk result (λ front. front ≡ with_spelled self text.now) }
    {
        match text.split_once('=') {
            Some((name, value)) => self.with_joined(alloc, name, value),
            None => self.with_bare(alloc, text),
        }
    }

    /// The path of the entry that a word names, if there may be one more and no positional before names it.
    fn new_entry(&self, alloc: Global, word: &str) -> Result<Option<Path>, AllocError>
        requires build { is_build self.now.usage ≡ true }
        ensures entry { IfOk result (λ entry. entry ≡ new_entry self.now.positionals word.now) }
    {
        if self.positionals.len() >= MAX_ENTRIES {
            return Ok(None);
        }
        match read_entry(alloc, word)? {
            None => Ok(None),
            Some(entry) => {
                if self.entries.contains(&entry) {
                    Ok(None)
                } else {
                    Ok(Some(entry))
                }
            }
        }
    }

    /// The front with one more entry, which has this path.
    fn push_entry(self, alloc: Global, entry: Path, word: &str) -> Result<Front, AllocError>
        requires build { is_build self.usage ≡ true }
        requires rooted { entry ≡ rooted word.now }
        ensures front { IfOk result (λ front. front ≡ record self { positionals = self.positionals ++ word.now ∷ [] }) }
    {
        let Front {
            usage,
            mut positionals,
            mut entries,
            options,
            given,
            waiting,
        } = self;
        entries.insert(entry, ())?;
        positionals.push(Text::from_str(alloc, word)?)?;
        Ok(Front {
            usage,
            positionals,
            entries,
            options,
            given,
            waiting,
        })
    }

    /// The front with one more entry, if it is one that no positional before names.
    fn with_entry(self, alloc: Global, word: &str) -> Result<Option<Front>, AllocError>
        requires build { is_build self.usage ≡ true }
        ensures front { IfOk result (λ front. front ≡ with_positional self word.now) }
    {
        match self.new_entry(alloc, word)? {
            None => Ok(None),
            Some(entry) => {
                let front = self.push_entry(alloc, entry, word)?;
                Ok(Some(front))
            }
        }
    }

    /// The front with one more of the numbers that `grow` is given, if it is one.
    fn with_amount(self, alloc: Global, word: &str) -> Result<Option<Front>, AllocError>
        requires grow { is_build self.usage ≡ false }
        ensures front { IfOk result (λ front. front ≡ with_positional self word.now) }
    {
        let Some(kind) = amount(self.positionals.len()) else {
            return Ok(None);
        };
        if !kind.accepts(word) {
            return Ok(None);
        }
        let Front {
            usage,
            mut positionals,
            entries,
            options,
            given,
            waiting,
        } = self;
        positionals.push(Text::from_str(alloc, word)?)?;
        Ok(Some(Front {
            usage,
            positionals,
            entries,
            options,
            given,
            waiting,
        }))
    }

    /// The front with one more positional.
    fn with_positional(self, alloc: Global, word: &str) -> Result<Option<Front>, AllocError>
        ensures front { IfOk result (λ front. front ≡ with_positional self word.now) }
    {
        match self.usage {
            Usage::Build | Usage::Replay => self.with_entry(alloc, word),
            Usage::Grow => self.with_amount(alloc, word),
        }
    }

    /// The front with a word that is no value.
    #[tactic(auto, unfolding(crate::specs::Fronts::with_word))]
    fn with_word(self, alloc: Global, word: &str) -> Result<Option<Front>, AllocError>
        ensures front { IfOk result (λ front. front ≡ with_word self word.now) }
    {
        if let Some(text) = word.strip_prefix("--") {
            return self.with_spelled(alloc, text);
        }
        if is_odd_word(word) {
            return Ok(None);
        }
        self.with_positional(alloc, word)
    }

    /// The front that waits for no value, and the option that it waited for.
    fn take_waiting(self) -> (Front, Option<(Text, ValueKind)>)
        ensures front { result.0 ≡ record self { waiting = None } }
        ensures waiting { result.1 ≡ self.waiting }
    {
        let Front {
            usage,
            positionals,
            entries,
            options,
            given,
            waiting,
        } = self;
        let front = Front {
            usage,
            positionals,
            entries,
            options,
            given,
            waiting: None,
        };
        (front, waiting)
    }

    /// The front with one more word, unless the word is bad. Refused only where memory runs out.
    pub(crate) fn next(self, alloc: Global, word: &str) -> Result<Option<Front>, AllocError>
        ensures front { IfOk result (λ front. front ≡ front_after self word.now) }
    {
        let (front, waiting) = self.take_waiting();
        match waiting {
            Some((name, kind)) => front.with_value(alloc, name, kind, word),
            None => front.with_word(alloc, word),
        }
    }

    /// Whether nothing is missing.
    #[tactic(auto, unfolding(crate::specs::Fronts::is_whole))]
    pub(crate) fn is_whole(&self) -> bool
        ensures whole { result ≡ is_whole self.now }
    {
        self.waiting.is_none() && self.positionals.len() >= self.usage.least_positionals()
    }

    /// The words of a command with this front.
    pub(crate) fn into_words(self, command: Text) -> Words
        ensures words { result ≡ words_in command self }
    {
        let Front {
            positionals,
            options,
            ..
        } = self;
        Words {
            command,
            positionals,
            options,
        }
    }
}
