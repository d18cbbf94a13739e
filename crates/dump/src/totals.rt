// How much there is of everything in a capture.
ghost use Rattle.std.specs.Prelude.{◌≡◌, List, [], ◌∷◌, ◌++◌, Some};
ghost use Rattle.dump.specs.Counts.{counts_in, added, totals_of, totals_text};

use crate::line::Line;
use std::fmt;

// Counts that stop at the largest `u64`. Heartbeats are segments too.
#[derive(Clone, Copy, Debug, Default, PartialEq, Eq)]
pub struct Totals {
    pub records: u64,
    pub segments: u64,
    pub heartbeats: u64,
    pub refusals: u64,
    pub messages: u64,
}

impl Totals {
    // The counts of one record.
    fn of(line: &Line) -> Totals
        ensures { result ≡ counts_in line.now }
    {
        let one = Totals {
            records: 1,
            ..Totals::default()
        };
        let segment = Totals { segments: 1, ..one };
        match line {
            Line::Refused(_) => Totals { refusals: 1, ..one },
            Line::Heartbeat(_) => Totals {
                heartbeats: 1,
                ..segment
            },
            Line::Messages(extent) => Totals {
                messages: u64::from(extent.count),
                ..segment
            },
        }
    }

    // Counts one record more.
    pub fn add(&mut self, line: &Line)
        ensures value { self.new ≡ added self.old line.now }
        ensures law { (ls : List Line) → self.old ≡ totals_of ls → self.new ≡ totals_of (ls ++ line.now ∷ []) }
    {
        let more = Totals::of(line);
        self.records = self.records.saturating_add(more.records);
        self.segments = self.segments.saturating_add(more.segments);
        self.heartbeats = self.heartbeats.saturating_add(more.heartbeats);
        self.refusals = self.refusals.saturating_add(more.refusals);
        self.messages = self.messages.saturating_add(more.messages);
    }
}

impl fmt::Display for Totals {
    ghost output = { λ t. Some (totals_text t) };

    fn fmt<W: fmt::Write>(&self, f: &mut fmt::Formatter<W>) -> fmt::Result {
        write!(
            f,
            "records {}, segments {}, heartbeats {}, refusals {}, messages {}",
            self.records, self.segments, self.heartbeats, self.refusals, self.messages
        )
    }
}
