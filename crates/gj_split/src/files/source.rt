//! Splits what a source has, as one text or record by record.
ghost use Rattle.std.specs.Prelude.{◌≡◌, ℕ, List, Ok, OnOk, IfOk};
ghost use Rattle.gj_split.specs.Holding.{AreKnown};
ghost use Rattle.gj_split.specs.Judged.{out_of};
ghost use Rattle.gj_split.specs.SplitSources.{IsSplit, IsWhole, as_text, as_records, HasAllValid};

use crate::files::judged::Judged;
use crate::{Counts, Ended, Input, Outputs, Ranges, Stop, split, split_records};
use gj_json::Limits;
use gj_rules::{Framing, SeqVerdict, Verdict};
use std::io::Write;

/// What a file is as a whole.
#[derive(Clone, Copy)]
pub enum Whole {
    /// One text. Of one that is not JSON, the features before the refusal were written.
    Text(Verdict),
    Records(Input),
}

/// Splits the features of a text, or the records of an input with this framing. What goes to the first writer is checked once
/// more, as it is written: the source may be another by then, and the split has then stopped.
pub fn split_source<R: Ranges, V: Write + Drop, B: Write + Drop, L: Write + Drop>(
    source: &R,
    framing: Option<Framing>,
    limits: Limits,
    outputs: Outputs<V, B, L>,
) -> Ended<Whole, V, B, L>
    ensures whole { IfOk result.outcome (λ whole. (bytes : List ℕ) → AreKnown R.text (V.contents outputs.valid) (B.contents outputs.broken) bytes
        → IsWhole framing limits bytes whole) }
    ensures parts { OnOk result.outcome ((bytes : List ℕ) → AreKnown R.text (V.contents outputs.valid) (B.contents outputs.broken) bytes
        → IsSplit framing limits bytes (V.contents result.outputs.valid) (B.contents result.outputs.broken) result.counts) }
{
    let valid = Judged::new(outputs.valid);
    let judged = Outputs {
        valid,
        broken: outputs.broken,
        list: outputs.list,
    };
    match framing {
        None => checked(of_text(split(source, limits, judged))),
        Some(given) => checked(of_records(split_records(source, given, limits, judged))),
    }
}

/// What is left of a split of one text.
fn of_text<V: Drop, B: Drop, L: Drop>(ended: Ended<Verdict, V, B, L>) -> Ended<Whole, V, B, L>
    ensures outcome { result.outcome ≡ as_text ended.outcome }
    ensures counts { result.counts ≡ ended.counts }
    ensures outputs { result.outputs ≡ ended.outputs }
{
    Ended {
        outcome: match ended.outcome {
            Ok(verdict) => Ok(Whole::Text(verdict)),
            Err(stop) => Err(stop),
        },
        counts: ended.counts,
        outputs: ended.outputs,
    }
}

/// What is left of a split of records.
fn of_records<V: Drop, B: Drop, L: Drop>(ended: Ended<Input, V, B, L>) -> Ended<Whole, V, B, L>
    ensures outcome { result.outcome ≡ as_records ended.outcome }
    ensures counts { result.counts ≡ ended.counts }
    ensures outputs { result.outputs ≡ ended.outputs }
{
    Ended {
        outcome: match ended.outcome {
            Ok(input) => Ok(Whole::Records(input)),
            Err(stop) => Err(stop),
        },
        counts: ended.counts,
        outputs: ended.outputs,
    }
}

/// What is left of a split once the first part is checked.
fn checked<V: Write + Drop, B: Drop, L: Drop>(
    ended: Ended<Whole, Judged<V>, B, L>,
) -> Ended<Whole, V, B, L>
    ensures outcome { IfOk result.outcome (λ whole. ended.outcome ≡ Ok whole) }
    ensures counts { result.counts ≡ ended.counts }
    ensures valid { result.outputs.valid ≡ out_of ended.outputs.valid }
    ensures broken { result.outputs.broken ≡ ended.outputs.broken }
{
    let counts = ended.counts;
    let outputs = ended.outputs;
    let (verdict, valid) = outputs.valid.finish();
    Ended {
        outcome: agreed(ended.outcome, verdict, counts),
        counts,
        outputs: Outputs {
            valid,
            broken: outputs.broken,
            list: outputs.list,
        },
    }
}

/// The outcome, if the first part is a valid sequence of as many records as were written.
fn agreed(outcome: Result<Whole, Stop>, verdict: SeqVerdict, counts: Counts) -> Result<Whole, Stop>
    ensures outcome { IfOk result (λ whole. outcome ≡ Ok whole) }
    ensures valid { OnOk result (HasAllValid verdict counts) }
{
    match verdict {
        SeqVerdict::Valid { records, .. } if records == counts.valid => outcome,
        _ => match outcome {
            Ok(_) => Err(Stop::Changed),
            Err(stop) => Err(stop),
        },
    }
}
