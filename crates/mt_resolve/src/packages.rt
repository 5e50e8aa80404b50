//! What package files say.
ghost use Rattle.std.specs.Prelude.{◌≡◌, IfOk, OnOk, option_map};
ghost use Rattle.std.specs.FinMap as map;
ghost use Rattle.mt_package.specs.Packages.{entry_of, package_of};
ghost use Rattle.mt_resolve.specs.Searches.{AreRead, answer_at, answer_of};

use crate::place::Place;
use mt_containers::{Text, TextList};
use mt_package::{PackageFault, read_package};
use mt_path::{Path, PathMap};
use std::alloc::{AllocError, Global};

/// What is kept of a package file.
#[derive(Drop)]
pub(crate) enum PackageAnswer {
    /// It can't be read.
    Bad,
    /// It is read, and this is its entry, if it names one.
    Main(Option<Text>),
}

/// What is kept of package files, by their paths.
pub(crate) type PackageMap = PathMap<PackageAnswer>;

/// A copy of a text, if there is one.
fn copied(alloc: Global, text: Option<&str>) -> Result<Option<Text>, AllocError>
    ensures same { IfOk result (λ copy. copy ≡ option_map (λ text. text.now) text.entry) }
{
    match text {
        Some(text) => Ok(Some(Text::from_str(alloc, text)?)),
        None => Ok(None),
    }
}

/// What is kept of a package file of these bytes.
fn package_answer(
    alloc: Global,
    bytes: &[u8],
    main_fields: &TextList,
) -> Result<PackageAnswer, AllocError>
    ensures exact { IfOk result (λ answer. answer ≡ answer_of (entry_of main_fields.now) (package_of bytes.now)) }
{
    match read_package(alloc, bytes) {
        Ok(package) => {
            let entry = package.entry(main_fields.as_slice());
            Ok(PackageAnswer::Main(copied(alloc, entry)?))
        }
        Err(PackageFault::NoMemory) => Err(AllocError),
        Err(_) => Ok(PackageAnswer::Bad),
    }
}

impl Place<'_> {
    /// Reads a package file that is there, if it wasn't read before.
    pub(crate) fn read(
        &self,
        alloc: Global,
        packages: &mut PackageMap,
        file: &Path,
    ) -> Result<(), AllocError>
        requires read { AreRead self.now.options.now self.now.files.now packages.old }
        ensures said { OnOk result (map.get packages.new file.now ≡ answer_at self.now.options.now self.now.files.now file.now) }
        ensures read { AreRead self.now.options.now self.now.files.now packages.new }
    {
        if packages.contains(file) {
            return Ok(());
        }
        let Some(source) = self.files.source(file) else {
            return Ok(());
        };
        let answer = package_answer(alloc, source.as_slice(), &self.options.main_fields)?;
        packages.insert(file.clone()?, answer)?;
        Ok(())
    }
}
