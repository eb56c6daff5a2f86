//! The faults of what is in the second part: a line of JSON for each feature or record.
ghost use Rattle.std.specs.Prelude.{◌≡◌, OnOk};
ghost use Rattle.std.specs.Io.KnownBytes.{Appends};
ghost use Rattle.gj_split.specs.Lines.{fault_text, refusal_text, cause_number, feature_head, feature_line, record_head, record_line};

use gj_coords::Fault;
use gj_json::{Cause, JsonFault};
use gj_rules::{Feature, Record, Verdict};
use std::io::{self, Write};

/// Writes `{"index":1,"offset":42,"rule":"G6","text":"geometry missing","at":42}` for a feature with a fault: the number of
/// features before it, the byte offset of its first byte in the text, the rule that it breaks, and the byte offset of the
/// fault.
pub fn put_feature<W: Write>(feature: &Feature, out: &mut W) -> io::Result<()>
    ensures { OnOk result (Appends (W.contents out.old) (W.contents out.new) (feature_line feature.now)) }
{
    match feature.fault {
        Some(fault) => {
            put_feature_head(feature, out)?;
            put_fault(fault, out)
        }
        None => Ok(()),
    }
}

/// Writes the line of a record that is not valid: `record`, its number, stands in place of `index`, and where it is not JSON
/// the cause in place of the rule.
pub fn put_record<W: Write>(found: &Record, out: &mut W) -> io::Result<()>
    ensures { OnOk result (Appends (W.contents out.old) (W.contents out.new) (record_line found.now)) }
{
    match found.verdict {
        Verdict::Valid(_) => Ok(()),
        Verdict::Broken(fault) => {
            put_record_head(found, out)?;
            put_fault(fault, out)
        }
        Verdict::NotJson(fault) => {
            put_record_head(found, out)?;
            put_refusal(fault, out)
        }
    }
}

/// Writes the beginning of a feature's line.
#[tactic(auto, unfolding(crate::specs::Lines::feature_head))]
fn put_feature_head<W: Write>(feature: &Feature, out: &mut W) -> io::Result<()>
    ensures { OnOk result (Appends (W.contents out.old) (W.contents out.new) (feature_head feature.now)) }
{
    let index = feature.index;
    let offset = feature.place;
    write!(out, "{{\"index\":{index},\"offset\":{offset}")
}

/// Writes the beginning of a record's line.
#[tactic(auto, unfolding(crate::specs::Lines::record_head))]
fn put_record_head<W: Write>(found: &Record, out: &mut W) -> io::Result<()>
    ensures { OnOk result (Appends (W.contents out.old) (W.contents out.new) (record_head found.now)) }
{
    let number = found.number;
    let place = found.place;
    write!(out, "{{\"record\":{number},\"offset\":{place}")
}

/// Writes the rest of a line: the rule that is broken.
#[tactic(auto, unfolding(crate::specs::Lines::reason_text))]
fn put_fault<W: Write>(fault: Fault, out: &mut W) -> io::Result<()>
    ensures { OnOk result (Appends (W.contents out.old) (W.contents out.new) (fault_text fault)) }
{
    let number = fault.rule.number();
    let text = fault.rule.text();
    let place = fault.place;
    write!(
        out,
        ",\"rule\":\"G{number}\",\"text\":\"{text}\",\"at\":{place}}}\n"
    )
}

/// Writes the rest of a line: why the record is not JSON.
#[tactic(auto, unfolding(crate::specs::Lines::reason_text))]
fn put_refusal<W: Write>(fault: JsonFault, out: &mut W) -> io::Result<()>
    ensures { OnOk result (Appends (W.contents out.old) (W.contents out.new) (refusal_text fault)) }
{
    let number = cause_number(fault.cause);
    let text = fault.cause.text();
    let place = fault.place;
    write!(
        out,
        ",\"rule\":\"J{number}\",\"text\":\"{text}\",\"at\":{place}}}\n"
    )
}

/// The number of a cause, as in J1.
fn cause_number(cause: Cause) -> u8
    ensures { result ≡ cause_number cause }
{
    match cause {
        Cause::Syntax => 1,
        Cause::Truncated => 2,
        Cause::Depth => 3,
        Cause::Length => 4,
    }
}
