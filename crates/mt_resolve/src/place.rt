//! What a search looks at.
ghost use Rattle.std.specs.Prelude.{◌≡◌, IfOk};
ghost use Rattle.mt_files.specs.Resolve.{endings as endings_for};

use crate::endings::all_endings;
use mt_containers::{Shared, TextList};
use mt_files::FileMap;
use mt_package::Options;
use std::alloc::{AllocError, Global};

/// The files and options of a search.
#[derive(Drop)]
pub(crate) struct Place<'a> {
    pub(crate) files: &'a FileMap,
    pub(crate) options: &'a Options,
    /// The endings of the options.
    pub(crate) endings: Shared<TextList>,
    ghost listed: { endings ≡ endings_for options.now },
}

impl<'a> Place<'a> {
    /// These files, with these options.
    pub(crate) fn new(
        alloc: Global,
        files: &'a FileMap,
        options: &'a Options,
    ) -> Result<Place<'a>, AllocError>
        ensures files { IfOk result (λ place. place.files.now ≡ files.now) }
        ensures options { IfOk result (λ place. place.options.now ≡ options.now) }
    {
        let endings = Shared::new(alloc, all_endings(alloc, options)?)?;
        Ok(Place {
            files,
            options,
            endings,
        })
    }
}
