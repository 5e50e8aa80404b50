//! What the options of a line say.
ghost use Rattle.std.specs.Prelude.{◌≡◌, ◌≤◌, IfOk, is_some, option_copied, codes};
ghost use Rattle.mt_request.specs.Values.{build_options, dev_of, platform_of, workers_of};
ghost use Rattle.mt_words.specs.Tables.{named};

use mt_package::Options;
use mt_tokens::Text;
use mt_words::read_number;
use std::alloc::{AllocError, Global};

/// The number of workers where none is given.
const WORKERS: u32 = 4;

/// The value of the option of this name, if it is given.
fn value_of<'a>(options: &'a [(Text, Text)], name: &str) -> Option<&'a Text>
    ensures value { option_copied result ≡ named options.now name.now }
{
    for (given, value) in options {
        if name == given.as_str() {
            return Some(value);
        }
    }
    None
}

/// Whether the option of this name is given.
pub(crate) fn is_given(options: &[(Text, Text)], name: &str) -> bool
    ensures given { result ≡ is_some (named options.now name.now) }
{
    value_of(options, name).is_some()
}

/// A copy of the value of the option of this name, if it is given.
pub(crate) fn read_value(options: &[(Text, Text)], name: &str) -> Result<Option<Text>, AllocError>
    ensures value { IfOk result (λ value. value ≡ named options.now name.now) }
{
    match value_of(options, name) {
        None => Ok(None),
        Some(value) => Ok(Some(value.clone()?)),
    }
}

/// The platform that is built for.
fn read_platform(alloc: Global, options: &[(Text, Text)]) -> Result<Text, AllocError>
    ensures platform { IfOk result (λ platform. platform ≡ platform_of options.now) }
{
    match value_of(options, "platform") {
        None => Text::from_str(alloc, "ios"),
        Some(platform) => platform.clone(),
    }
}

/// Whether a build is for development.
fn read_dev(options: &[(Text, Text)]) -> bool
    ensures dev { result ≡ dev_of options.now }
{
    match value_of(options, "dev") {
        None => true,
        Some(dev) => dev.as_str() == "true",
    }
}

/// The number of workers.
pub(crate) fn read_workers(options: &[(Text, Text)]) -> u32
    requires most { workers_of options.now ≤ 64 }
    ensures workers { result ≡ workers_of options.now }
{
    match value_of(options, "workers") {
        None => WORKERS,
        Some(text) => match read_number(text.as_str()) {
            None => WORKERS,
            Some(workers) => workers as u32,
        },
    }
}

/// How bundles are made.
pub(crate) fn read_options(alloc: Global, given: &[(Text, Text)]) -> Result<Options, AllocError>
    ensures options { IfOk result (λ options. options ≡ build_options given.now) }
{
    let mut options = Options::standard(alloc)?;
    options.platform = read_platform(alloc, given)?;
    options.dev = read_dev(given);
    options.strip = is_given(given, "strip");
    Ok(options)
}
