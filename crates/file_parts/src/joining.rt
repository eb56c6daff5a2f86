//! The verdict of an input of records from those of all its parts.

ghost use Rattle.std.specs.Prelude.{◌≡◌, ◌+◌, ◌*◌, ◌^◌, ◌<◌, ◌≤◌, ℕ, [], List, Err, IfOk, IfSome, IsSome, length};
ghost use Rattle.std.specs.List.{All};
ghost use Rattle.gj_json.specs.Limits.{Allowed};
ghost use Rattle.gj_join.specs.Joined.{IsVerdictOf, NumbersFit};
ghost use Rattle.gj_rules.specs.declared.records.framing.Framing.{Framing};
ghost use Rattle.file_parts.specs.Checked.{AreAllParts, HasAtMost, IsPartOf, IsVerdictOfBytes, records_in};
ghost use Rattle.file_parts.specs.Internal.JoinedSoFar.{IsJoinedTo};

use crate::checked::CheckedPart;
use gj_coords::Warnings;
use gj_join::sequences::join;
use gj_rules::SeqVerdict;

/// Why the verdicts of parts are not joined.
#[derive(Clone, Copy, PartialEq)]
pub enum Misfit {
    /// One part does not begin where those before it end, or the last one does not end where the text does.
    NotInOrder,
    /// A number goes past 64 bits.
    TooMany,
}

/// The verdict of an input of `size` bytes, from those of all its parts in their order.
///
/// A part with no byte may stand anywhere. Where the parts are all those of a text, they are in order.
pub fn join_parts(parts: &[CheckedPart], size: u64) -> Result<SeqVerdict, Misfit>
    ensures whole { IfOk result (λ whole. (framing : Framing) (limits : Allowed) (text : List ℕ) → length text ≡ size
        → All (IsPartOf framing limits text) parts.now
        → IsVerdictOf framing limits text whole) }
    ensures complete { (framing : Framing) (limits : Allowed) (text : List ℕ) → length text ≡ size → 0 < length parts.now
        → AreAllParts framing limits text parts.now → result ≡ Err Misfit.NotInOrder → ⊥ }
    ensures few { (most : ℕ) → length parts.now * most < 2 ^ 64 → All (HasAtMost most) parts.now → result ≡ Err Misfit.TooMany → ⊥ }
{
    let mut whole = nothing();
    let mut end = 0;
    for part in parts {
        if part.begin < part.end {
            if part.begin != end {
                return Err(Misfit::NotInOrder);
            }
            whole = match with_part(whole, part) {
                Some(joined) => joined,
                None => return Err(Misfit::TooMany),
            };
            end = part.end;
        }
    }
    if end == size {
        Ok(whole)
    } else {
        Err(Misfit::NotInOrder)
    }
}

/// The verdict of no bytes, with which a join begins.
pub fn nothing() -> SeqVerdict
    ensures verdict { (framing : Framing) (limits : Allowed) → IsVerdictOf framing limits [] result }
    ensures none { records_in result ≡ 0 }
{
    SeqVerdict::Valid {
        records: 0,
        warnings: Warnings::none(),
    }
}

/// The verdict of the bytes up to the end of a part that has some, given that of the bytes before them.
fn with_part(before: SeqVerdict, part: &CheckedPart) -> Option<SeqVerdict>
    ensures joined { IfSome result (λ whole. (framing : Framing) (limits : Allowed) (text : List ℕ) → part.now.begin < part.now.end
        → IsVerdictOfBytes framing limits text part.now
        → IsJoinedTo framing limits text part.now.begin before → IsJoinedTo framing limits text part.now.end whole) }
    ensures records { IfSome result (λ whole. records_in whole ≤ records_in before + records_in part.now.verdict) }
    ensures fits { NumbersFit 0 part.now.begin part.now.verdict → records_in before + records_in part.now.verdict < 2 ^ 64 → IsSome result }
{
    if part.begin == 0 {
        Some(part.verdict)
    } else {
        join(before, part.begin, part.verdict)
    }
}
