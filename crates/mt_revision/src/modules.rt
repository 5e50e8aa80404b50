//! The modules of a revision.
ghost use Rattle.std.specs.Prelude.{◌≡◌, ◌<◌, nat_le, filter, IfOk, OnOk, OnErr, option_copied};
ghost use Rattle.std.specs.List.{slice_get};
ghost use Rattle.std.specs.FinMap as map;

use mt_containers::{List, NumberMap, Shared};
use mt_path::Path;
use mt_tokens::Bytes;
use mt_transform::Output;
use mt_write::{Slot, module_text};
use std::alloc::{AllocError, Global};
use std::marker::Model;

/// A module of a revision.
#[derive(Drop)]
pub struct Module {
    /// Where its source is.
    pub path: Path,
    /// What its source became.
    pub output: Shared<Output>,
    /// What stands for its dependencies, a slot for each name of the output in the same order.
    pub slots: List<Slot>,
}

impl Module {
    ghost use Rattle.mt_revision.specs.Texts.{text_in};

    /// The text of the module under a number. Refused only where memory runs out.
    pub fn text(&self, alloc: Global, number: u32, dev: bool) -> Result<Bytes, AllocError>
        ensures exact { IfOk result (λ text. text ≡ text_in dev number self.now) }
    {
        let body = self.output.body();
        module_text(alloc, number, &self.path, body, self.slots.as_slice(), dev)
    }
}

/// The modules of a revision by their numbers, which are below 327,680. Contracts see a finite map.
#[derive(Drop)]
pub struct ModuleMap {
    pub(crate) by_number: NumberMap<Shared<Module>>,
}

impl Model for ModuleMap {
    ghost use Rattle.std.specs.Prelude.{◌≡◌, ℕ, ◌<◌, true};
    ghost use Rattle.std.specs.FinMap as map;
    ghost use Rattle.std.specs.Ordering.{nat_cmp};
    ghost use Rattle.std.specs.Coded.{coded_ℕ};
    ghost use Rattle.mt_revision.specs.declared.modules.Module.{Module};
    ghost use Rattle.mt_revision.specs.contracts.modules.Module as the_module;

    ghost Value = { map.FinMap nat_cmp Module };

    ghost coded = { map.code coded_ℕ the_module.the_row.coded };

    ghost view = { λ m. m.by_number };

    ghost invariant = { λ m. (number : ℕ) → map.contains_key m.by_number number ≡ true → number < 327680 };
}

impl ModuleMap {
    /// No modules. Takes no memory.
    pub fn new(alloc: Global) -> ModuleMap
        ensures empty { result ≡ map.empty }
    {
        ModuleMap {
            by_number: NumberMap::new(alloc),
        }
    }

    /// How many modules there are.
    pub fn len(&self) -> u32
        ensures len { result ≡ map.len self.now }
    {
        self.by_number.len() as u32
    }

    /// The module with a number.
    pub fn get(&self, number: u32) -> Option<&Shared<Module>>
        ensures found { option_copied result ≡ map.get self.now number }
    {
        self.by_number.get(number)
    }

    /// The least number of a module that is at least this one.
    pub fn at_least(&self, number: u32) -> Option<u32>
        ensures least { result ≡ slice_get (filter (nat_le number) (map.keys self.now)) 0 }
    {
        self.by_number.at_least(number)
    }

    /// The same modules, to be gone over by ascending number.
    pub fn by_number(&self) -> &NumberMap<Shared<Module>>
        ensures same { result.now ≡ self.now }
    {
        &self.by_number
    }

    /// Keeps a module under a number, in place of another one. Refused only where memory runs out, and the modules are
    /// then as before.
    pub fn insert(&mut self, number: u32, kept: Shared<Module>) -> Result<(), AllocError>
        requires small { number < 327680 }
        ensures ok { OnOk result (self.new ≡ map.insert self.old number kept) }
        ensures err { OnErr result (self.new ≡ self.old) }
    {
        self.by_number.insert(number, kept)?;
        Ok(())
    }
}
