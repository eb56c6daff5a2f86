//! What holds of texts and of what is refused, whoever reads them: each contract is a law of the definitions.

ghost use Rattle.std.specs.Prelude.{◌≡◌, ℕ, ◌≤◌, ◌^◌, ◌++◌, ◌⊎◌, ◌↔◌, List, length, Some, None};
ghost use Rattle.gj_json.specs.declared.fault.JsonFault.{JsonFault};
ghost use Rattle.gj_json.specs.Limits.{Allowed, IsAllowed};
ghost use Rattle.gj_json.specs.Tree.{Text};
ghost use Rattle.gj_json.specs.Text.{IsText, IsViable, IsViableWithin};
ghost use Rattle.gj_json.specs.Refusal.{IsRefusal, IsAdmitted};
ghost use Rattle.gj_json.specs.Longest.{IsLongest, IsToldBy};
ghost use Rattle.gj_json.specs.Broken.{Broken, SpellsBroken, broken_depth, Extends};
ghost use Rattle.gj_json.specs.Events.{events_by, all_events};
ghost use Rattle.gj_json.specs.Open.{open_at};
ghost use Rattle.gj_json.specs.Path.{path_at};
ghost use Rattle.gj_json.specs.declared.reader.Reader.{Reader};
ghost use Rattle.gj_json.specs.Reader.{StandsFor, refusal_of, offset_of};

/// Bytes are the text of at most one tree.
pub fn one_text()
    ensures { (first second : Text) (bytes : List ℕ) → IsText first bytes → IsText second bytes → first ≡ second }
{}

/// Texts that begin alike have the same events complete there, and as many arrays and objects open.
pub fn same_events()
    ensures events { (bytes more other : List ℕ) (first second : Text) → IsText first (bytes ++ more) → IsText second (bytes ++ other)
        → events_by (length bytes) first ≡ events_by (length bytes) second }
    ensures open { (bytes more other : List ℕ) (first second : Text) → IsText first (bytes ++ more) → IsText second (bytes ++ other)
        → open_at (length bytes) first ≡ open_at (length bytes) second }
{}

/// Texts that begin alike have the same path there.
pub fn same_path()
    ensures { (bytes more other : List ℕ) (first second : Text) → IsText first (bytes ++ more) → IsText second (bytes ++ other)
        → path_at (length bytes) first ≡ path_at (length bytes) second }
{}

/// A reader took all bytes that it was given, or those before the one that it refused.
pub fn bytes_taken()
    ensures open { (reader : Reader) (bytes : List ℕ) → StandsFor reader bytes → refusal_of reader ≡ None → offset_of reader ≡ length bytes }
    ensures refused { (reader : Reader) (bytes : List ℕ) (fault : JsonFault) → StandsFor reader bytes → refusal_of reader ≡ Some fault
        → offset_of reader ≡ fault.place }
    ensures within { (reader : Reader) (bytes : List ℕ) → StandsFor reader bytes → offset_of reader ≤ length bytes }
{}

/// Each prefix of what can still become a text can still become one, within a depth too.
pub fn viable_fronts()
    ensures front { (bytes more : List ℕ) → IsViable (bytes ++ more) → IsViable bytes }
    ensures front_within { (levels : ℕ) (bytes more : List ℕ) → IsViableWithin levels (bytes ++ more) → IsViableWithin levels bytes }
    ensures without_limit { (levels : ℕ) (bytes : List ℕ) → IsViableWithin levels bytes → IsViable bytes }
{}

/// Under any limits an input has one refusal, or it is an admitted text, and never both.
pub fn one_refusal()
    ensures at_most_one { (limits : Allowed) (bytes : List ℕ) (first second : JsonFault) → IsRefusal limits bytes first → IsRefusal limits bytes second
        → first ≡ second }
    ensures either { (limits : Allowed) (bytes : List ℕ) → ((fault : JsonFault) × IsRefusal limits bytes fault)
        ⊎ ((text : Text) × IsAdmitted limits text bytes) }
    ensures never_both { (limits : Allowed) (bytes : List ℕ) (fault : JsonFault) (text : Text) → IsRefusal limits bytes fault → IsAdmitted limits text bytes
        → ⊥ }
{}

/// The longest prefix, of no more bytes than are allowed, that can still become a text within the depth decides the refusal:
/// its place and its cause.
pub fn longest_front()
    ensures some { (limits : Allowed) (bytes : List ℕ) → (k : ℕ) × IsLongest limits bytes k }
    ensures one { (limits : Allowed) (bytes : List ℕ) (first second : ℕ) → IsLongest limits bytes first → IsLongest limits bytes second → first ≡ second }
    ensures tells { (limits : Allowed) (bytes : List ℕ) (k : ℕ) → IsLongest limits bytes k → IsToldBy limits bytes k }
{}

/// What can still become a text, within a depth too, is exactly what spells a text broken off that nests no deeper.
pub fn broken_off()
    ensures within { (levels : ℕ) (bytes : List ℕ)
        → IsViableWithin levels bytes ↔ ((broken : Broken) × SpellsBroken broken bytes × (broken_depth broken ≤ levels)) }
    ensures any { (bytes : List ℕ) → IsViable bytes ↔ ((broken : Broken) × SpellsBroken broken bytes) }
{}

/// Bytes spell at most one text broken off.
pub fn one_broken()
    ensures { (first second : Broken) (bytes : List ℕ) → SpellsBroken first bytes → SpellsBroken second bytes → first ≡ second }
{}

/// A text broken off is the left part of every text that goes on from its bytes.
pub fn left_part()
    ensures { (broken : Broken) (text : Text) (bytes rest : List ℕ) → SpellsBroken broken bytes → IsText text (bytes ++ rest) → Extends broken text }
{}

/// A text has no more events than bytes, that of a byte order mark among them.
pub fn few_events()
    ensures { (text : Text) (bytes : List ℕ) → IsText text bytes → length (all_events text) ≤ length bytes }
{}

/// The limits that are allowed: a depth of 1 to 256, and 1 to 2^60 bytes.
pub fn allowed_limits()
    ensures { (depth bytes : ℕ) → IsAllowed depth bytes ↔ ((1 ≤ depth) × (depth ≤ 256) × (1 ≤ bytes) × (bytes ≤ 2 ^ 60)) }
{}
