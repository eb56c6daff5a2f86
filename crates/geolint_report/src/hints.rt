//! What a file looks like: the bytes that a hint goes by are looked at once more, by their places.

ghost use Rattle.std.specs.Prelude.{◌≡◌};
ghost use Rattle.gj_rules.specs.Linter.{limits_of};

use crate::every::cursor::lesser;
use crate::judge::{Finding, PIECE};
use crate::source::Peek;
use gj_coords::{Fault, Kind, Rule};
use gj_hints::{Clues, Hint, Wrong, hint};
use gj_json::{Cause, JsonFault, Limits};
use gj_rules::{Linter, SeqVerdict, Verdict};

/// How many of the first bytes of a file are looked at.
const HEAD: usize = 512;

/// How many bytes are looked at before a place, and from it on.
const BEFORE: usize = 256;

const AFTER: usize = 256;

/// What is wrong with a file, and the place that shows it.
#[derive(Clone, Copy)]
struct Symptom {
    wrong: Wrong,
    place: u64,
}

/// What a source looks like in which this was found, by this linter if it is a text.
pub fn find_hint<S: Peek>(finding: &Finding, linter: &Linter, source: &S) -> Option<Hint> {
    let symptom = symptom_of(finding, linter)?;
    let mut head = [0; HEAD];
    let head_count = source.peek(0, &mut head);
    let back = symptom.place.min(BEFORE as u64) as usize;
    let mut around = [0; BEFORE + AFTER];
    let count = source.peek(symptom.place - back as u64, &mut around);
    if count < back {
        return None;
    }
    let clues = Clues {
        head: &head[..head_count],
        before: &around[..back],
        after: &around[back..count],
    };
    hint(symptom.wrong, &clues)
}

/// Feeds a linter the bytes before the one that refuses a text, where another linter has read them: a hint depends on what is
/// open there. They are looked at once more. No clause says what a look gives, nor what the linter then stands for.
pub fn feed_before_fault<S: Peek>(
    finding: &Finding,
    limits: Limits,
    linter: &mut Linter,
    source: &S,
)
    ensures { limits_of linter.new ≡ limits }
{
    let _left = linter.finish_and_begin(limits);
    if let Finding::Text(Verdict::NotJson(fault)) = finding {
        feed_before(fault.place, linter, source);
    }
}

fn feed_before<S: Peek>(place: u64, linter: &mut Linter, source: &S)
    ensures { limits_of linter.new ≡ limits_of linter.old }
{
    let mut piece = [0; PIECE];
    let mut fed = 0;
    while fed < place {
        let count = source.peek(fed, &mut piece);
        if count == 0 {
            return;
        }
        let taken = lesser(count, place - fed);
        let _ = linter.feed(&piece[..taken]);
        fed += taken as u64;
    }
}

/// What is wrong, as far as a hint depends on it.
fn symptom_of(finding: &Finding, linter: &Linter) -> Option<Symptom> {
    match finding {
        Finding::Text(Verdict::NotJson(fault)) => Some(refusal_of(fault, linter)),
        Finding::Text(verdict) => symptom_in(verdict),
        Finding::Sequence(SeqVerdict::Record { verdict, .. }) => symptom_in(verdict),
        _ => None,
    }
}

/// A text is refused: after its end, where the linter stopped with nothing open any more, or before it.
fn refusal_of(fault: &JsonFault, linter: &Linter) -> Symptom {
    let is_behind = fault.cause == Cause::Syntax
        && fault.place > 0
        && linter.offset() == fault.place
        && linter.levels() == 0;
    Symptom {
        wrong: if is_behind {
            Wrong::TextFollows
        } else {
            Wrong::Refused
        },
        place: fault.place,
    }
}

fn symptom_in(verdict: &Verdict) -> Option<Symptom> {
    match verdict {
        Verdict::NotJson(fault) => Some(Symptom {
            wrong: Wrong::Refused,
            place: fault.place,
        }),
        Verdict::Broken(fault) => broken_symptom(fault),
        Verdict::Valid(warnings) => Some(Symptom {
            wrong: Wrong::OutOfRange,
            place: warnings.first(Kind::W5)?,
        }),
    }
}

fn broken_symptom(fault: &Fault) -> Option<Symptom> {
    let wrong = match fault.rule {
        Rule::G1 => Wrong::NoObject,
        Rule::G2 => Wrong::NoType,
        Rule::G3 => Wrong::OtherType,
        Rule::G11 => Wrong::OtherShape,
        Rule::G16 => Wrong::BeyondProfile,
        _ => return None,
    };
    Some(Symptom {
        wrong,
        place: fault.place,
    })
}
