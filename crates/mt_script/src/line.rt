//! The line at the start of a script.
ghost use Rattle.std.specs.Prelude.{◌≡◌, ◌==◌, ◌⊎◌, Ok, IfOk, IsErr, OnErr};
ghost use Rattle.std.specs.List.{position};
ghost use Rattle.mt_io.specs.Seen.{Tells};
ghost use Rattle.mt_io.specs.Told.{Reading};
ghost use Rattle.mt_script.specs.Commands.{line_feed};
ghost use Rattle.mt_script.specs.Reads.{Advances, Holds, IsSpent};
ghost use Rattle.mt_script.specs.Steps.{line_end};

use crate::read_buffer::ReadBuffer;
use mt_io::{Failed, Source};

/// The most bytes of a line, without its line feed.
pub const MAX_LINE_BYTES: usize = 1100;

/// How the line at the start of some bytes ends.
#[derive(Clone, Copy, Debug)]
pub(crate) enum LineEnd {
    /// A line feed stands after this number of bytes.
    Whole(usize),
    /// There are more bytes than a line has, and no line feed in time.
    TooLong,
    /// No line feed has come yet.
    Unfinished,
}

/// The place of the first line feed.
fn line_feed_in(bytes: &[u8]) -> Option<usize>
    ensures { result ≡ position (λ b. b == line_feed) bytes.now }
{
    bytes.iter().position(|byte| *byte == b'\n')
}

/// How the line at the start of these bytes ends.
fn end_of_line(bytes: &[u8]) -> LineEnd
    ensures { result ≡ line_end bytes.now }
{
    match line_feed_in(bytes) {
        Some(len) => {
            if len > MAX_LINE_BYTES {
                LineEnd::TooLong
            } else {
                LineEnd::Whole(len)
            }
        }
        None => {
            if bytes.len() > MAX_LINE_BYTES {
                LineEnd::TooLong
            } else {
                LineEnd::Unfinished
            }
        }
    }
}

/// Reads until the line at the start has come to its end, whatever that is, or the source has.
pub(crate) fn hold_line<S: Source>(
    buffer: &mut ReadBuffer,
    source: &mut S,
) -> Result<LineEnd, Failed>
    ensures end { IfOk result (λ end. end ≡ line_end buffer.new) }
    ensures err { OnErr result (line_end buffer.new ≡ LineEnd.Unfinished) }
    ensures waits { ((source.new ≡ source.old) × (buffer.new ≡ buffer.old)) ⊎ (line_end buffer.old ≡ LineEnd.Unfinished) }
    ensures source { Advances (S.seen source.old) (S.seen source.new) (IsErr result) }

    // Where the source tells its reading.
    ensures holds { (r : Reading) → Tells (S.seen source.old) r → Holds r (S.seen source.new).told buffer.old buffer.new }
    ensures spent { (r : Reading) → Tells (S.seen source.old) r → result ≡ Ok LineEnd.Unfinished → IsSpent (S.seen source.new).told }
{
    let mut end = end_of_line(buffer.as_slice());
    while matches!(end, LineEnd::Unfinished) {
        let count = buffer.refill(source)?;
        if count == 0 {
            return Ok(LineEnd::Unfinished);
        }
        end = end_of_line(buffer.as_slice());
    }
    Ok(end)
}
