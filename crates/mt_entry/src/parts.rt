//! The bytes of an entry that aren't lengths, numbers or texts.
ghost use Rattle.std.specs.Prelude.{◌≡◌};
ghost use Rattle.mt_tokens.specs.CacheEntries.{kind_byte, name_byte, strip_byte};
ghost use Rattle.mt_entry.specs.Readers.{start_bytes};

use mt_tokens::{DepKind, PathKind};

/// The version of the entries that are read and written.
const VERSION: u8 = 1;

/// The byte that says whether comments are left out of the body.
fn strip_byte(strip: bool) -> u8
    ensures { result ≡ strip_byte strip }
{
    match strip {
        false => 0,
        true => 1,
    }
}

/// The byte that says what a source is.
fn kind_byte(kind: PathKind) -> u8
    ensures { result ≡ kind_byte kind }
{
    match kind {
        PathKind::Script => 0,
        PathKind::Json => 1,
    }
}

/// The bytes of an entry before its source.
pub(crate) fn start_bytes(strip: bool, kind: PathKind) -> [u8; 6]
    ensures { result ≡ start_bytes strip kind }
{
    [
        b'M',
        b'T',
        b'C',
        VERSION,
        strip_byte(strip),
        kind_byte(kind),
    ]
}

/// The byte that says how a name is required.
pub(crate) fn name_byte(kind: DepKind) -> u8
    ensures { result ≡ name_byte kind }
{
    match kind {
        DepKind::Require => 0,
        DepKind::Import => 1,
        DepKind::ImportCall => 2,
    }
}
