//! How bundles are made.
ghost use Rattle.std.specs.Prelude.{◌≡◌, IfOk, map};
ghost use Rattle.mt_package.specs.Options.{standard_options};

use mt_tokens::{Text, TextList};
use std::alloc::{AllocError, Global};

/// How bundles are made.
#[derive(Debug, Drop)]
pub struct Options {
    /// The platform, whose files come before those of all platforms.
    pub platform: Text,
    /// Whether a bundle is for development: it then says so, and each module has its path.
    pub dev: bool,
    /// Whether comments are left out.
    pub strip: bool,
    /// The fields of a package file that may name its main file, the first that does.
    pub main_fields: TextList,
    /// The extensions that a name may leave out, in the order in which they are tried.
    pub source_exts: TextList,
}

/// The words as a list of texts.
fn text_list(alloc: Global, words: &[&str]) -> Result<TextList, AllocError>
    ensures texts { IfOk result (λ list. list ≡ map (λ word. word.now) words.now) }
{
    let mut list = TextList::new(alloc);
    for word in words {
        list.push(Text::from_str(alloc, word)?)?;
    }
    Ok(list)
}

impl Options {
    /// The options of a build that is told none: for the platform `ios` and for development, with comments, main fields
    /// `react-native`, `browser` and `main`, and the extensions js, jsx, json, ts and tsx. Refused only where
    /// memory runs out.
    pub fn standard(alloc: Global) -> Result<Options, AllocError>
        ensures exact { IfOk result (λ options. options ≡ standard_options) }
    {
        Ok(Options {
            platform: Text::from_str(alloc, "ios")?,
            dev: true,
            strip: false,
            main_fields: text_list(alloc, &["react-native", "browser", "main"])?,
            source_exts: text_list(alloc, &["js", "jsx", "json", "ts", "tsx"])?,
        })
    }
}
