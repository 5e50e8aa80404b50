//! How a run ends that writes.
ghost use Rattle.std.specs.Prelude.{◌≡◌};
ghost use Rattle.metro_program.specs.Plans.{sent_outcome};

use mt_io::Trouble;
use mt_report::Outcome;

/// How a run ends that was to end so once all bytes were written: unless a write failed, or memory ran out.
pub fn sent(written: Result<(), Trouble>, outcome: Outcome) -> Outcome
    ensures exact { result ≡ sent_outcome outcome written }
{
    match written {
        Ok(()) => outcome,
        Err(trouble) => Outcome::from(trouble),
    }
}
