//! Laws of the definitions, each the contract of a function that does nothing.
ghost use Rattle.std.specs.Prelude.{◌≡◌, ◌↔◌, ℕ, ◌⊎◌, true, List, [], ◌∷◌, ◌++◌, Some, None};
ghost use Rattle.gj_number.specs.Bytes.{minus_sign, IsDigit, IsNumberByte};
ghost use Rattle.gj_number.specs.Grammar.{IsNumber, BeginsNumber};
ghost use Rattle.gj_number.specs.DecidedNumbers.{is_number, begins_number};
ghost use Rattle.gj_number.specs.Exact.{Exact, IsNormal, SameValue};
ghost use Rattle.gj_number.specs.Value.{value_of};
ghost use Rattle.gj_number.specs.Denotation.{Denotes, IsHeld};

/// Functions decide which bytes are a number and which begin one, and a number begins and goes on by certain bytes alone.
pub fn decided_numbers()
    ensures number { (bytes : List ℕ) → (is_number bytes ≡ true) ↔ IsNumber bytes }
    ensures begins { (bytes : List ℕ) → (begins_number bytes ≡ true) ↔ BeginsNumber bytes }
    ensures first { (b : ℕ) → BeginsNumber (b ∷ []) ↔ ((b ≡ minus_sign) ⊎ IsDigit b) }
    ensures last { (bytes : List ℕ) (b : ℕ) → BeginsNumber (bytes ++ b ∷ []) → IsNumberByte b }
{}

/// Each number denotes one decimal, and what denotes one is a number.
pub fn one_decimal()
    ensures exists { (literal : List ℕ) → IsNumber literal → (e : Exact) × Denotes literal e }
    ensures unique { (literal : List ℕ) (a b : Exact) → Denotes literal a → Denotes literal b → a ≡ b }
    ensures number { (literal : List ℕ) (e : Exact) → Denotes literal e → IsNumber literal }
{}

/// The function that contracts cite gives that decimal exactly where it is held.
pub fn value_where_held()
    ensures held { (literal : List ℕ) (e : Exact) → Denotes literal e → (value_of literal ≡ Some e) ↔ IsHeld literal e }
    ensures not_held { (literal : List ℕ) (e : Exact) → Denotes literal e → (value_of literal ≡ None) ↔ (¬ IsHeld literal e) }
{}

/// A decimal in its normal form is one with each decimal of the same value in that form.
pub fn one_form()
    ensures denoted { (literal : List ℕ) (e : Exact) → Denotes literal e → IsNormal e }
    ensures same { (a b : Exact) → IsNormal a → IsNormal b → (a ≡ b) ↔ SameValue a b }
{}
