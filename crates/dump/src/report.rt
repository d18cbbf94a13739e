// A report on the records of a capture: their lines, and the counts.
ghost use Rattle.std.specs.Prelude.{◌≡◌, [], IfOk, OnOk};
ghost use Rattle.capture.specs.Records.{cut_record};
ghost use Rattle.dump.specs.Counts.{totals_of};
ghost use Rattle.dump.specs.Reports.{with_record, with_cut, with_totals, Reports, Follows, EndsWithCounts};

use crate::line::describe;
use crate::totals::Totals;
use capture::records::{Records, cut_record};
use std::alloc::{AllocError, Global};
use std::marker::Model;
use wire::address::Expected;

#[derive(Drop)]
pub struct Report {
    expected: Expected,
    totals: Totals,
    // what is yet to be printed
    text: String,
}

impl Model for Report {
    ghost use Rattle.std.specs.Prelude.{string_bytes};
    ghost use Rattle.dump.specs.Reports.{Reported};

    ghost Value = { Reported };

    ghost view = { λ r. record { expected = r.expected; totals = r.totals; text = string_bytes r.text } };
}

impl Report {
    // A report on no record.
    pub fn new(heap: Global, expected: Expected) -> Report
        ensures value { result ≡ record { expected = expected; totals = totals_of []; text = [] } }
        ensures follows { Follows [] [] result }
    {
        Report {
            expected,
            totals: Totals::default(),
            text: String::new(heap),
        }
    }

    // Reports one record. An error is one of memory: the record is counted, and nothing is said of the text.
    pub fn add(&mut self, datagram: &[u8]) -> Result<(), AllocError>
        ensures counted { self.new ≡ record (with_record self.old datagram.now) { text = self.new.text } }
        ensures reported { OnOk result (self.new ≡ with_record self.old datagram.now) }
    {
        let line = describe(datagram, &self.expected);
        self.totals.add(&line);
        writeln!(self.text, "{}: {line}", self.totals.records)
    }

    // Reports the whole records at the front of `bytes`, and says how many bytes they take.
    pub fn add_records(&mut self, bytes: &[u8]) -> Result<usize, AllocError>
        ensures expected { self.new.expected ≡ self.old.expected }
        ensures reported { IfOk result (λ n. Reports self.old self.new bytes.now n) }
    {
        let mut records = Records::new(bytes);
        // Not `for record in &mut records`: of what is left after such a loop a proof knows nothing.
        while let Some(record) = records.next() {
            self.add(record)?;
        }
        Ok(bytes.len() - records.rest().len())
    }

    // Reports what is left at the capture's end, a record that was cut or nothing, and the counts.
    pub fn finish(&mut self, rest: &[u8]) -> Result<(), AllocError>
        ensures reported { OnOk result (self.new ≡ with_totals (with_cut self.old (cut_record rest.now))) }
        ensures counted { OnOk result (EndsWithCounts rest.now self.old self.new) }
    {
        self.add_cut(rest)?;
        self.add_totals()
    }

    // Reports a record that was cut, if there is one.
    fn add_cut(&mut self, rest: &[u8]) -> Result<(), AllocError>
        ensures { OnOk result (self.new ≡ with_cut self.old (cut_record rest.now)) }
    {
        match cut_record(rest) {
            Some(record) => self.add(record),
            None => Ok(()),
        }
    }

    // Reports the counts.
    fn add_totals(&mut self) -> Result<(), AllocError>
        ensures { OnOk result (self.new ≡ with_totals self.old) }
    {
        writeln!(self.text, "total: {}", self.totals)
    }

    // What is yet to be printed.
    pub fn text(&self) -> &str
        ensures { result.now ≡ self.now.text }
    {
        self.text.as_str()
    }

    // Forgets the text, once it is printed.
    pub fn clear_text(&mut self)
        ensures { self.new ≡ record self.old { text = [] } }
    {
        self.text.clear();
    }
}
