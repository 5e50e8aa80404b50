//! The writers of a bundle: its head, its modules, and the lines that start modules.
ghost use Rattle.std.specs.Prelude.{◌≡◌, if◌then◌else◌};
ghost use Rattle.mt_io.specs.Seen.{Writes};
ghost use Rattle.mt_write.specs.Bundle.{prelude, prelude_end, dev_line, plain_line};
ghost use Rattle.mt_write.specs.Modules.{module_head, module_of, start_of};

use crate::pieces::{Piece, write_pieces};
use crate::slot::Slot;
use mt_io::{Failed, Sink};
use mt_path::Path;

/// The functions that define and run modules.
fn prelude_bytes() -> &'static [u8]
    ensures { result.now ≡ prelude_end }
{
    b"(function(global){\nvar defs={},done={};\nfunction define(f,id,deps){defs[id]={f:f,deps:deps};delete done[id];}\nfunction run(id){\nif(id===null)return {};\nif(done[id])return done[id].exports;\nvar d=defs[id];\nif(!d)throw new Error(\"unknown module \"+id);\nvar m=done[id]={exports:{}};\nd.f(global,run,importDefault,importAll,m,m.exports,d.deps);\nreturn m.exports;\n}\nfunction importDefault(id){var e=run(id);return e&&e.__esModule?e.default:e;}\nfunction importAll(id){var e=run(id);if(e&&e.__esModule)return e;var r={};for(var k in e)r[k]=e[k];r.default=e;return r;}\nglobal.__d=define;global.__r=run;\nglobal.__exportAll=function(t,e){for(var k in e)if(k!==\"default\")t[k]=e[k];};\n})(typeof globalThis!==\"undefined\"?globalThis:this);\n"
}

/// The line that says whether the bundle is for development.
fn mode_bytes(dev: bool) -> &'static [u8]
    ensures { result.now ≡ (if dev then dev_line else plain_line) }
{
    if dev {
        b"var __DEV__=true;\n"
    } else {
        b"var __DEV__=false;\n"
    }
}

/// The line that begins each module.
fn head_bytes() -> &'static [u8]
    ensures { result.now ≡ module_head }
{
    b"__d(function (global, require, importDefault, importAll, module, exports, dependencyMap) {\n"
}

/// Writes what comes before the modules: a line that says whether the bundle is for development, and the functions that
/// define and run modules.
///
/// It takes no memory. After an `Err` the sink has taken a prefix of those bytes.
pub fn write_head<S: Sink>(dev: bool, sink: &mut S) -> Result<(), Failed>
    ensures { Writes (S.seen sink.old) (S.seen sink.new) (prelude dev) result }
{
    write_pieces(
        &[Piece::Bytes(mode_bytes(dev)), Piece::Bytes(prelude_bytes())],
        sink,
    )
}

/// Writes a module with its number, its path, its body and a slot for each dependency. Only a bundle for development has
/// the path.
///
/// It takes no memory. After an `Err` the sink has taken a prefix of those bytes.
pub fn write_module<'a, S: Sink>(
    number: u32,
    path: &'a Path,
    body: &'a [u8],
    slots: &'a [Slot],
    dev: bool,
    sink: &mut S,
) -> Result<(), Failed>
    ensures { Writes (S.seen sink.old) (S.seen sink.new) (module_of number path.now body.now slots.now dev) result }
{
    let pieces = [
        Piece::Bytes(head_bytes()),
        Piece::Bytes(body),
        Piece::Bytes(b"\n},"),
        Piece::Number(number),
        Piece::Bytes(b",["),
        Piece::Slots(slots),
        Piece::Bytes(b"]"),
        Piece::Path(path, dev),
        Piece::Bytes(b");\n"),
    ];
    write_pieces(&pieces, sink)
}

/// Writes the line that starts a module.
///
/// It takes no memory. After an `Err` the sink has taken a prefix of that line.
pub fn write_start<S: Sink>(number: u32, sink: &mut S) -> Result<(), Failed>
    ensures { Writes (S.seen sink.old) (S.seen sink.new) (start_of number) result }
{
    let pieces = [
        Piece::Bytes(b"__r("),
        Piece::Number(number),
        Piece::Bytes(b");\n"),
    ];
    write_pieces(&pieces, sink)
}
