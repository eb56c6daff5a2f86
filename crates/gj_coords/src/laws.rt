//! Laws of the definitions, each the contract of a function that does nothing.
ghost use Rattle.std.specs.Prelude.{◌≡◌, ◌↔◌, ◌<◌, ◌^◌, ◌++◌, ◌∷◌, [], List, length, map, Option, Some, None, IsTrue};
ghost use Rattle.std.specs.List.{AllByRecursion, range_with_len};
ghost use Rattle.gj_json.specs.Tree.{Tree};
ghost use Rattle.gj_json.specs.Events.{value_events};
ghost use Rattle.gj_coords.specs.declared.fault.Fault.{Fault};
ghost use Rattle.gj_coords.specs.Fault.{number_of, rules, comes_first, lesser, least};
ghost use Rattle.gj_coords.specs.Ring.{agree, first_values};
ghost use Rattle.gj_coords.specs.declared.warnings.Warnings.{Warnings};
ghost use Rattle.gj_coords.specs.Warnings.{Warning, kind_number, kinds};
ghost use Rattle.gj_coords.specs.declared.simple.Simple.{Simple};
ghost use Rattle.gj_coords.specs.Internal.KeptWarnings.{warnings_of, no_warnings, joined};
ghost use Rattle.gj_coords.specs.WarningsStand.{StandsFor};
ghost use Rattle.gj_coords.specs.WarningsTold.{Tells, CountsFit};
ghost use Rattle.gj_coords.specs.CoordinateWarnings.{coordinates_warnings};
ghost use Rattle.gj_coords.specs.Internal.CoordinatesKept.{coordinates_kept};

/// The number of each rule and of each kind of warning is its place in the table, plus one, as its name has it.
pub fn numbers_of_names()
    ensures rules { map number_of rules ≡ range_with_len 1 (length rules) }
    ensures kinds { map kind_number kinds ≡ range_with_len 1 (length kinds) }
{}

/// The least of some faults is one of them, and comes before each of them or is the same. It can be
/// taken in any grouping.
pub fn least_fault()
    ensures none { (faults : List Fault) → (least faults ≡ None) ↔ (faults ≡ []) }
    ensures one_of_them { (faults : List Fault) (fault : Fault) → least faults ≡ Some fault →
        (before : List Fault) × (after : List Fault) × (faults ≡ before ++ fault ∷ after) }
    ensures first { (faults : List Fault) (fault : Fault) → least faults ≡ Some fault →
        AllByRecursion (λ other. IsTrue (comes_first fault other)) faults }
    ensures grouping { (a b c : Option Fault) → lesser (lesser a b) c ≡ lesser a (lesser b c) }
    ensures joined { (faults others : List Fault) → least (faults ++ others) ≡ lesser (least faults) (least others) }
{}

/// Two positions agree exactly where their first numbers have the same exact values, and are as many.
pub fn positions_agree()
    ensures { (a b : Tree) → IsTrue (agree a b) ↔ (first_values a ≡ first_values b) }
{}

/// Warnings can be joined in any grouping and order, and none of them change nothing. What is kept of two lists in a
/// row is what is kept of each, joined.
pub fn joined_warnings()
    ensures none_first { (a : Warnings) → joined no_warnings a ≡ a }
    ensures none_last { (a : Warnings) → joined a no_warnings ≡ a }
    ensures grouping { (a b c : Warnings) → joined (joined a b) c ≡ joined a (joined b c) }
    ensures order { (a b : Warnings) → joined a b ≡ joined b a }
    ensures append { (warnings others : List Warning) → warnings_of (warnings ++ others) ≡ joined (warnings_of warnings) (warnings_of others) }
{}

/// Whatever it keeps, a `Warnings` has the counts and the least places of some list of warnings; and where it stands
/// for a list, those of that list. A number of a law has no bound, so that a count of 32 bits is a premise.
pub fn told_warnings()
    ensures some { (told : Warnings) → CountsFit told → (warnings : List Warning) × Tells told warnings }
    ensures stands { (told : Warnings) (warnings : List Warning) → StandsFor told warnings → Tells told warnings }
{}

/// What is kept of a value of fewer than 2^64 events is what is kept of the list of its warnings. A LineString has those of
/// a MultiPoint.
pub fn kept_warnings()
    ensures short { (simple : Simple) (value : Tree) → length (value_events value) < 2 ^ 64 →
        coordinates_kept simple value ≡ warnings_of (coordinates_warnings simple value) }
    ensures line { (value : Tree) → coordinates_kept Simple.MultiPoint value ≡ coordinates_kept Simple.LineString value }
{}
