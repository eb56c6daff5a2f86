//! What an input of records is by its parts: each contract is a law.

ghost use Rattle.std.specs.Prelude.{◌≡◌, ◌++◌, ◌+◌, ℕ, List, length};
ghost use Rattle.gj_json.specs.Limits.{Allowed};
ghost use Rattle.gj_join.specs.Parts.{ArePartsOf, limits_after};
ghost use Rattle.gj_join.specs.Joined.{joined_findings, joined_judgement, joined_verdict};
ghost use Rattle.gj_rules.specs.RecordFindings.{AreAllFindings, IsWholeVerdict};
ghost use Rattle.gj_rules.specs.Sequence.{SequenceJudgement};
ghost use Rattle.gj_rules.specs.SequenceJudgement.{IsSequenceJudgement};
ghost use Rattle.gj_rules.specs.declared.records.framing.Framing.{Framing};
ghost use Rattle.gj_rules.specs.declared.records.record.Record.{Record};
ghost use Rattle.gj_rules.specs.declared.sequence.verdict.SeqVerdict.{SeqVerdict};

/// What a text sequence is, given what two parts of it are (RFC 8142).
pub fn joined_judgements()
    ensures { (limits : Allowed) (first second : List ℕ) (one other : SequenceJudgement) → ArePartsOf Framing.Sequence limits first second
        → IsSequenceJudgement limits first one → IsSequenceJudgement (limits_after limits (length first)) second other
        → IsSequenceJudgement limits (first ++ second) (joined_judgement (length first) one other) }
{}

/// What newline-delimited texts are, given what two parts of them are.
pub fn joined_lines()
    ensures { (limits : Allowed) (first second : List ℕ) (one other : SeqVerdict) → ArePartsOf Framing.Lines limits first second
        → IsWholeVerdict Framing.Lines limits first one → IsWholeVerdict Framing.Lines (limits_after limits (length first)) second other
        → IsWholeVerdict Framing.Lines limits (first ++ second) (joined_verdict (length first) one other) }
{}

/// Three parts give the same, whichever two are joined first. The first has `end` bytes, and the second `more`.
pub fn joined_in_any_grouping()
    ensures { (end more : ℕ) (one two three : SequenceJudgement) →
        joined_judgement (end + more) (joined_judgement end one two) three ≡ joined_judgement end one (joined_judgement more two three) }
{}

/// What is found in the records of an input, given what is found in those of two parts of it: the numbers of the second count on
/// from the records of the first, and its places begin where the first ends.
pub fn joined_findings()
    ensures { (framing : Framing) (limits : Allowed) (first second : List ℕ) (found more : List Record) → ArePartsOf framing limits first second
        → AreAllFindings framing limits first found → AreAllFindings framing (limits_after limits (length first)) second more
        → AreAllFindings framing limits (first ++ second) (joined_findings (length first) found more) }
{}
