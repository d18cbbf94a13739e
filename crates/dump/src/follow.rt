// Following a capture as it is read.
ghost use Rattle.std.specs.Prelude.{◌≡◌, ◌<◌, length, IfOk};
ghost use Rattle.std.specs.Io.KnownBytes.{IsAtEnd};
ghost use Rattle.capture.specs.declared.intake.TheConstants.{SIZE};
ghost use Rattle.dump.specs.Reports.{FollowsOn};

use crate::report::Report;
use capture::intake::Intake;
use std::io::Read;

// Reads more of a capture and reports the records that are whole by now. It says how many bytes were read: 0 at the end.
pub fn follow<R: Read>(
    intake: &mut Intake,
    report: &mut Report,
    source: &mut R,
) -> anyhow::Result<usize>
    ensures expected { report.new.expected ≡ report.old.expected }
    ensures follows { IfOk result (λ n. FollowsOn intake.old report.old intake.new report.new n) }
    ensures end { IfOk result (λ n. n ≡ 0 → length intake.old < SIZE → IsAtEnd (R.remaining source.new)) }
{
    let n = intake.fill(source)?;
    let used = report.add_records(intake.bytes())?;
    intake.discard(used);
    Ok(n)
}
