//! What is found in the record that was reported last, where a host pulls them.
ghost use Rattle.std.specs.Prelude.{◌≡◌, IsTrue, []};
ghost use Rattle.gj_rules.specs.Verdict.{Judgement, Says};
ghost use Rattle.geolint_c.specs.Report.{report_of, valid_report};

use crate::finding::{Finding, clean_finding, finding_of_record};
use gj_rules::{Record, RecordSink, Verdict};

#[derive(Drop)]
pub struct LastRecord {
    finding: Finding,
    /// Whether nothing is found in that record: then so much of the finding stays for the next such record.
    is_clean: bool,
    ghost id: { IsTrue is_clean → finding.id ≡ 0 },
    ghost report: { IsTrue is_clean → finding.report ≡ valid_report [] },
}

/// Whether it says that a text is valid and has no warning.
#[inline(always)]
fn is_clean(verdict: &Verdict) -> bool
    ensures { IsTrue result → (judgement : Judgement) → Says verdict.now judgement → report_of judgement ≡ valid_report [] }
{
    match verdict {
        Verdict::Valid(warnings) => warnings.is_empty(),
        Verdict::Broken(_) | Verdict::NotJson(_) => false,
    }
}

impl LastRecord {
    ghost use Rattle.std.specs.Prelude.{◌≡◌, []};
    ghost use Rattle.geolint_c.specs.Finding.{IsRecord};
    ghost use Rattle.geolint_c.specs.Records.{IsLast};

    /// No record was reported.
    pub fn new() -> LastRecord
        ensures { IsLast result [] }
    {
        LastRecord {
            finding: clean_finding(0, 0, 0),
            is_clean: true,
        }
    }

    /// What is found in it.
    #[inline]
    pub fn get(&self) -> Finding
        ensures { result ≡ self.now.finding }
    {
        if self.is_clean {
            clean_finding(self.finding.number, self.finding.place, self.finding.end)
        } else {
            self.finding
        }
    }

    /// Keeps all that is found in a record.
    #[inline(never)]
    fn keep(&mut self, found: &Record)
        ensures { IsRecord found.now self.new.finding }
    {
        *self = if is_clean(&found.verdict) {
            LastRecord {
                finding: clean_finding(found.number, found.place, found.end),
                is_clean: true,
            }
        } else {
            LastRecord {
                finding: finding_of_record(found),
                is_clean: false,
            }
        };
    }
}

impl RecordSink for LastRecord {
    ghost use Rattle.geolint_c.specs.Records.{IsLast};

    ghost told = { λ last records. IsLast last records };

    #[inline(always)]
    fn tell_record(&mut self, found: &Record) {
        if self.is_clean && is_clean(&found.verdict) {
            self.finding.number = found.number;
            self.finding.place = found.place;
            self.finding.end = found.end;
        } else {
            self.keep(found);
        }
    }
}
