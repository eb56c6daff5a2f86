//! How many features or records there are, how many are broken, and of how many each rule, kind of warning and cause is reported.
ghost use Rattle.std.specs.Prelude.{List, OnOk};
ghost use Rattle.geolint_report.specs.declared.every.tally.Tally.{Tally};
ghost use Rattle.geolint_report.specs.Line.{Adds};
ghost use Rattle.geolint_report.specs.Tallies.{IsTotal};
ghost use Rattle.report_forms.specs.Items.{items_line, items_summary};

use crate::code_lines::put_codes;
use geolint_report::every::tally::Tally;
use geolint_report::line::put_all;
use itoa::Buffer;
use std::alloc::AllocError;

/// Puts what is counted of the features and the records of some files.
#[tactic(auto, unfolding(crate::specs::Items::items_summary))]
pub fn put_items(tally: &Tally, line: &mut Vec<u8>) -> Result<(), AllocError>
    ensures { (tallies : List Tally) → IsTotal tally.now tallies → OnOk result (Adds line.old line.new (items_summary tallies)) }
{
    put_items_line(tally.items, tally.broken, line)?;
    put_codes(&tally.counts, line)
}

#[tactic(auto, unfolding(crate::specs::Items::items_line))]
fn put_items_line(items: u64, broken: u64, line: &mut Vec<u8>) -> Result<(), AllocError>
    ensures { OnOk result (Adds line.old line.new (items_line items broken)) }
{
    let mut item_digits = Buffer::new();
    let mut broken_digits = Buffer::new();
    put_all(
        line,
        &[
            item_digits.format(items).as_bytes(),
            b" features or records, ",
            broken_digits.format(broken).as_bytes(),
            b" broken\n",
        ],
    )
}
