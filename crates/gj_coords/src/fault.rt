//! What is wrong with a text, and where.
ghost use Rattle.std.specs.Prelude.{◌≡◌, ◌≤◌, length};
ghost use Rattle.gj_coords.specs.Fault.{number_of, comes_first, lesser};
ghost use Rattle.gj_coords.specs.Texts.{rule_text};

use std::fmt;

/// The rules that a GeoJSON text may break. The section of RFC 7946 is in brackets. What is at the place of the
/// fault comes after the colon.
#[derive(Clone, Copy, Debug, PartialEq, Eq)]
pub enum Rule {
    /// Not an object where one is due (sections 2, 3.1.8, 3.2 and 3.3): the value.
    G1,
    /// The member `type` is missing (3): the object.
    G2,
    /// The value of `type` is none of those allowed here (1.4 and 7): the value of `type`.
    G3,
    /// The member `coordinates` is missing (3.1): the object.
    G4,
    /// The member `geometries` is missing (3.1.8): the object.
    G5,
    /// The member `geometry` is missing (3.2): the object.
    G6,
    /// The member `properties` is missing (3.2): the object.
    G7,
    /// The member `features` is missing (3.3): the object.
    G8,
    /// A member that the type forbids (7.1): its name.
    G9,
    /// A known name is repeated (RFC 8259, section 4): the later name.
    G10,
    /// Coordinates of the wrong shape (3.1.1 to 3.1.7): the value in them that is not right.
    G11,
    /// A position of fewer than two elements (3.1.1): the position.
    G12,
    /// A line of fewer than two positions (3.1.4 and 3.1.5): the line.
    G13,
    /// A linear ring of fewer than four positions (3.1.6): the ring.
    G14,
    /// A linear ring that is not closed (3.1.6): the ring.
    G15,
    /// A number that is not held, among the first three of a position, as RFC 8259, section 6, lets a reader limit them: the
    /// number.
    G16,
    /// The value of `features` or `geometries` is no array (3.1.8 and 3.3): the value.
    G17,
    /// The value of `properties` is neither an object nor null (3.2): the value.
    G18,
    /// The `id` of a Feature is neither a string nor a number (3.2): the value.
    G19,
    /// A bounding box that is no array, or an element of one that is no number (5): the value, or the element.
    G20,
    /// A bounding box of odd length, or of a length below four (5): the array.
    G21,
}

/// The rules in the order of their numbers, each with what it is called in a report, as a macro takes them.
#[macro_export]
macro_rules! rule_texts {
    ($form:ident) => {
        $form! {
            Rule:
            G1 => "not an object",
            G2 => "type missing",
            G3 => "type not allowed here",
            G4 => "coordinates missing",
            G5 => "geometries missing",
            G6 => "geometry missing",
            G7 => "properties missing",
            G8 => "features missing",
            G9 => "member forbidden by section 7.1",
            G10 => "name repeated",
            G11 => "coordinates of the wrong shape",
            G12 => "position of fewer than two elements",
            G13 => "line of fewer than two elements",
            G14 => "ring of fewer than four elements",
            G15 => "ring not closed",
            G16 => "number beyond the profile",
            G17 => "not an array",
            G18 => "properties neither object nor null",
            G19 => "id neither string nor number",
            G20 => "bbox or its element of the wrong kind",
            G21 => "bbox length odd or below 4",
        }
    };
}

/// The rules in the order of their numbers.
pub const RULES: [Rule; 21] = rule_texts!(variants);

/// What each is called, in the same order.
const RULE_TEXTS: [&str; RULES.len()] = rule_texts!(texts);

impl Rule {
    /// The number in the rule's name, from 1 on.
    pub fn number(self) -> u8
        ensures { result ≡ number_of self }
    {
        self as u8 + 1
    }

    /// What the rule is called in a report.
    #[tactic(auto, using(crate::proofs::TextLengths::rule_short), unfolding(crate::specs::Texts::rule_text))]
    pub fn text(self) -> &'static str
        ensures text { result.now ≡ rule_text self }
        ensures short { length result.now ≤ 37 }
    {
        match RULE_TEXTS.get(self as usize) {
            Some(text) => text,
            None => "",
        }
    }
}

impl fmt::Display for Rule {
    ghost use Rattle.std.specs.Prelude.{Some};

    ghost output = { λ rule. Some (rule_text rule) };

    fn fmt<W: fmt::Write>(&self, f: &mut fmt::Formatter<W>) -> fmt::Result {
        f.write_str(self.text())
    }
}

/// A rule that is broken, and the place of what breaks it.
#[derive(Clone, Copy, Debug, PartialEq, Eq)]
pub struct Fault {
    /// How many bytes of the text come before it.
    pub place: u64,
    pub rule: Rule,
}

impl Fault {
    /// Whether it is the lesser of the two, or both are the same.
    fn comes_before(&self, other: &Fault) -> bool
        ensures { result ≡ comes_first self.now other.now }
    {
        self.place < other.place
            || (self.place == other.place && self.rule.number() <= other.rule.number())
    }
}

/// The lesser of two faults: by place, and at one place by the rule's number.
pub fn lesser_fault(first: Option<Fault>, second: Option<Fault>) -> Option<Fault>
    ensures { result ≡ lesser first second }
{
    match (first, second) {
        (None, _) => second,
        (_, None) => first,
        (Some(one), Some(other)) => {
            if one.comes_before(&other) {
                first
            } else {
                second
            }
        }
    }
}

/// Makes the least fault so far the lesser of it and another.
#[inline]
pub fn join_fault(least: &mut Option<Fault>, fault: Option<Fault>)
    ensures { least.new ≡ lesser least.old fault }
{
    if let Some(found) = fault {
        let is_lesser = match least {
            None => true,
            Some(so_far) => !so_far.comes_before(&found),
        };
        if is_lesser {
            *least = fault;
        }
    }
}
