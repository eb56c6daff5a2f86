//! What the parts of a text are together: each contract is a law.

ghost use Rattle.std.specs.Prelude.{◌≡◌, ◌<◌, ◌++◌, ℕ, List, length, Bool};
ghost use Rattle.gj_json.specs.Limits.{Allowed};
ghost use Rattle.gj_join.specs.Joined.{joined_findings, records_among};
ghost use Rattle.gj_join.specs.Parts.{ArePartsOf, limits_after};
ghost use Rattle.gj_rules.specs.RecordFindings.{AreAllFindings};
ghost use Rattle.gj_rules.specs.declared.records.framing.Framing.{Framing};
ghost use Rattle.gj_rules.specs.declared.records.record.Record.{Record};
ghost use Rattle.geolint_report.specs.Every.{notes_of_records};
ghost use Rattle.file_parts.specs.JoinedNotes.{joined_notes};
ghost use Rattle.file_parts.specs.Ranges.{AreParts, bytes_of_parts};

use gj_join::sequences::joined_findings;

/// The bytes of all parts, one after the other, are the text: none is lost, and none is there twice.
pub fn parts_make_the_text()
    ensures { (framing : Framing) (limits : Allowed) (text : List ℕ) (parts : ℕ) (begin end : ℕ → ℕ) → 0 < parts
        → AreParts framing limits text parts begin end → bytes_of_parts begin end text parts ≡ text }
{}

/// The notes on the records of a text are those on the records of its first part, then those on the records of the second. The
/// records of the second are counted on from those of the first, and its places begin where the first ends.
pub fn joined_notes()
    ensures found { (framing : Framing) (limits : Allowed) (first second : List ℕ) (found more : List Record) → ArePartsOf framing limits first second
        → AreAllFindings framing limits first found → AreAllFindings framing (limits_after limits (length first)) second more
        → AreAllFindings framing limits (first ++ second) (joined_findings (length first) found more) }
    ensures notes { (with_warnings : Bool) (end : ℕ) (found more : List Record) → notes_of_records with_warnings (joined_findings end found more)
        ≡ joined_notes (records_among found) end (notes_of_records with_warnings found) (notes_of_records with_warnings more) }
{
    joined_findings();
}
