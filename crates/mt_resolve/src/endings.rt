//! What a path may leave out.
ghost use Rattle.std.specs.Prelude.{◌≡◌, ◌++◌, IfOk, OnOk, codes};
ghost use Rattle.mt_files.specs.Resolve.{endings, endings_of};

use mt_containers::{Text, TextList};
use mt_package::Options;
use std::alloc::{AllocError, Global};

/// An ending of these two texts.
fn ending(alloc: Global, front: &str, extension: &Text) -> Result<Text, AllocError>
    ensures text { IfOk result (λ text. text ≡ front.now ++ extension.now) }
{
    let mut text = Text::from_str(alloc, front)?;
    text.push_str(extension.as_str())?;
    Ok(text)
}

/// The ending of an extension that is for one platform.
fn platform_ending(alloc: Global, platform: &Text, extension: &Text) -> Result<Text, AllocError>
    ensures text { IfOk result (λ text. text ≡ codes "." ++ platform.now ++ codes "." ++ extension.now) }
{
    let mut text = Text::from_str(alloc, ".")?;
    text.push_str(platform.as_str())?;
    text.push_str(".")?;
    text.push_str(extension.as_str())?;
    Ok(text)
}

/// Adds the endings of an extension.
fn add_endings(
    alloc: Global,
    list: &mut TextList,
    platform: &Text,
    extension: &Text,
) -> Result<(), AllocError>
    ensures ok { OnOk result (list.new ≡ list.old ++ endings_of platform.now extension.now) }
{
    list.push(platform_ending(alloc, platform, extension)?)?;
    if platform.as_str() != "web" {
        list.push(ending(alloc, ".native.", extension)?)?;
    }
    list.push(ending(alloc, ".", extension)?)
}

/// The endings of all extensions, in the order in which they are tried.
pub(crate) fn all_endings(alloc: Global, options: &Options) -> Result<TextList, AllocError>
    ensures exact { IfOk result (λ list. list ≡ endings options.now) }
{
    let mut list = TextList::new(alloc);
    for extension in options.source_exts.as_slice() {
        add_endings(alloc, &mut list, &options.platform, extension)?;
    }
    Ok(list)
}
