// Reads a capture from standard input, and prints what each record says and how much there is of everything.
#![tactic(auto)]

mod arguments;
mod follow;
mod line;
mod report;
mod totals;

use arguments::expected;
use capture::intake::Intake;
use follow::follow;
use report::Report;
use std::io::Write;

fn main(rt: HostRuntime) -> anyhow::Result<()> {
    let expected = expected(&rt)?;
    let mut intake = Intake::new(rt.alloc())?;
    let mut report = Report::new(rt.alloc(), expected);
    let mut input = rt.stdin();
    let mut output = rt.stdout();
    // To the input's end, which comes before that many reads. A loop without a bound would need `Wait`.
    for _ in 0..u64::MAX {
        if follow(&mut intake, &mut report, &mut input)? == 0 {
            break;
        }
        output.write_all(report.text().as_bytes())?;
        report.clear_text();
    }
    report.finish(intake.bytes())?;
    output.write_all(report.text().as_bytes())?;
    Ok(())
}
