//! Where names lead, each looked for once.
ghost use Rattle.std.specs.Prelude.{◌≡◌, IfOk};
ghost use Rattle.mt_files.specs.Resolve.{resolved};

use crate::answers::{AnswerMap, keep_answers, known_answer};
use crate::folder::Notes;
use crate::place::Place;
use mt_containers::{Shared, Text};
use mt_files::{FileMap, Target};
use mt_package::Options;
use mt_path::Path;
use mt_tokens::DepKind;
use std::alloc::{AllocError, Global};

/// Where the names of a snapshot lead, as far as it was asked.
#[derive(Drop)]
pub struct Resolver<'a> {
    place: Place<'a>,
    notes: Notes,
    answers: AnswerMap,
}

impl<'a> Resolver<'a> {
    ghost use Rattle.mt_resolve.specs.Resolvers.{IsSound, files_in, options_in};

    /// A resolver that was asked nothing yet. Refused only where memory runs out.
    pub fn new(
        alloc: Global,
        files: &'a FileMap,
        options: &'a Options,
    ) -> Result<Resolver<'a>, AllocError>
        ensures files { IfOk result (λ r. files_in r ≡ files.now) }
        ensures options { IfOk result (λ r. options_in r ≡ options.now) }
        ensures sound { IfOk result IsSound }
    {
        Ok(Resolver {
            place: Place::new(alloc, files, options)?,
            notes: Notes::new(alloc, false),
            answers: AnswerMap::new(alloc),
        })
    }

    /// Where a name leads from the module `origin`. The kind changes nothing. Refused only where memory runs out.
    pub fn target(
        &mut self,
        alloc: Global,
        origin: &Path,
        name: &Text,
        kind: DepKind,
    ) -> Result<Shared<Target>, AllocError>
        requires sound { IsSound self.old }
        ensures target { IfOk result (λ target. target ≡ resolved (options_in self.old) (files_in self.old) origin.now name.now kind) }
        ensures files { files_in self.new ≡ files_in self.old }
        ensures options { options_in self.new ≡ options_in self.old }
        ensures sound { IsSound self.new }
    {
        let folder = origin.parent(alloc)?;
        if let Some(target) = known_answer(&self.answers, &folder, name) {
            let target = target.clone()?;
            return Ok(target);
        }
        let answer = self
            .place
            .answer(alloc, &mut self.notes, &self.answers, name, &folder)?;
        keep_answers(
            alloc,
            &mut self.answers,
            answer.passed.as_slice(),
            name,
            &answer.target,
        )?;
        Ok(answer.target)
    }
}
