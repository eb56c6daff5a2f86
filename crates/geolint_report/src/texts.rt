//! What each rule, kind of warning and cause is called.
ghost use Rattle.std.specs.Prelude.{◌≡◌, ◌-◌, is_some};
ghost use Rattle.std.specs.List.{find};
ghost use Rattle.gj_coords.specs.Internal.KeptWarnings.{first_in};
ghost use Rattle.geolint_report.specs.declared.texts.TheConstants.{ALL};
ghost use Rattle.geolint_report.specs.Texts.{cause_number, is_named};

use crate::line::put;
use gj_coords::{KINDS, Kind, RULES, Rule, Warnings};
use gj_json::Cause;
use std::alloc::AllocError;

/// The rules, the kinds of warning and the causes, each in the order of their numbers: so they are counted and listed.
pub const ALL: [Code; 34] = [
    Code::Rule(Rule::G1),
    Code::Rule(Rule::G2),
    Code::Rule(Rule::G3),
    Code::Rule(Rule::G4),
    Code::Rule(Rule::G5),
    Code::Rule(Rule::G6),
    Code::Rule(Rule::G7),
    Code::Rule(Rule::G8),
    Code::Rule(Rule::G9),
    Code::Rule(Rule::G10),
    Code::Rule(Rule::G11),
    Code::Rule(Rule::G12),
    Code::Rule(Rule::G13),
    Code::Rule(Rule::G14),
    Code::Rule(Rule::G15),
    Code::Rule(Rule::G16),
    Code::Rule(Rule::G17),
    Code::Rule(Rule::G18),
    Code::Rule(Rule::G19),
    Code::Rule(Rule::G20),
    Code::Rule(Rule::G21),
    Code::Kind(Kind::W1),
    Code::Kind(Kind::W2),
    Code::Kind(Kind::W3),
    Code::Kind(Kind::W4),
    Code::Kind(Kind::W5),
    Code::Kind(Kind::W6),
    Code::Kind(Kind::W7),
    Code::Kind(Kind::W8),
    Code::Kind(Kind::W9),
    Code::Cause(Cause::Syntax),
    Code::Cause(Cause::Truncated),
    Code::Cause(Cause::Depth),
    Code::Cause(Cause::Length),
];

/// What each of them is called.
const NAMES: [&str; 34] = [
    "G1", "G2", "G3", "G4", "G5", "G6", "G7", "G8", "G9", "G10", "G11", "G12", "G13", "G14", "G15",
    "G16", "G17", "G18", "G19", "G20", "G21", "W1", "W2", "W3", "W4", "W5", "W6", "W7", "W8", "W9",
    "J1", "J2", "J3", "J4",
];

/// How many rules, kinds of warning and causes there are.
pub const CODES: usize = ALL.len();

/// The code and the text of what is reported of a file.
#[derive(Clone, Copy, PartialEq, Eq)]
pub enum Code {
    Rule(Rule),
    Kind(Kind),
    Cause(Cause),
    /// Not valid, where nothing more was asked.
    NotValid,
}

impl Code {
    ghost use Rattle.std.specs.Prelude.{◌≡◌, OnOk};
    ghost use Rattle.geolint_report.specs.Line.{Adds};
    ghost use Rattle.geolint_report.specs.Slots.{slot_of};
    ghost use Rattle.geolint_report.specs.Texts.{code_text, code_name};

    /// Where its count lies among those of all codes.
    pub fn slot(self) -> usize
        ensures { result ≡ slot_of self }
    {
        match self {
            Code::Rule(rule) => (rule.number() as usize).saturating_sub(1),
            Code::Kind(kind) => kind.index() + RULES.len(),
            Code::Cause(cause) => cause_index(cause) + RULES.len() + KINDS.len(),
            Code::NotValid => usize::MAX,
        }
    }

    /// Its name, as G15.
    #[tactic(auto, unfolding(crate::specs::Texts::code_name))]
    pub fn name(self) -> &'static str
        ensures { result.now ≡ code_name self }
    {
        match NAMES.get(self.slot()) {
            Some(name) => name,
            None => "not-valid",
        }
    }

    /// What it is called in a report.
    pub fn text(self) -> &'static [u8]
        ensures { result.now ≡ code_text self }
    {
        match self {
            Code::Rule(rule) => rule.text().as_bytes(),
            Code::Kind(kind) => kind.text().as_bytes(),
            Code::Cause(cause) => cause.text().as_bytes(),
            Code::NotValid => b"not valid",
        }
    }

    /// Appends its text.
    pub fn put_text(self, line: &mut Vec<u8>) -> Result<(), AllocError>
        ensures { OnOk result (Adds line.old line.new (code_text self)) }
    {
        put(line, self.text())
    }

    /// Appends its name.
    pub fn put_name(self, line: &mut Vec<u8>) -> Result<(), AllocError>
        ensures { OnOk result (Adds line.old line.new (code_name self)) }
    {
        put(line, self.name().as_bytes())
    }
}

fn cause_index(cause: Cause) -> usize
    ensures { result ≡ cause_number cause - 1 }
{
    match cause {
        Cause::Syntax => 0,
        Cause::Truncated => 1,
        Cause::Depth => 2,
        Cause::Length => 3,
    }
}

/// The code of this name, in capitals or not.
pub fn code_named(name: &str) -> Option<Code>
    ensures { result ≡ find (is_named name.now) ALL }
{
    ALL.iter().copied().find(|code| is_named(name, *code))
}

fn is_named(name: &str, code: Code) -> bool
    ensures { result ≡ is_named name.now code }
{
    code.name().eq_ignore_ascii_case(name)
}

/// Whether there is a warning of the kind.
pub fn has(warnings: &Warnings, kind: Kind) -> bool
    ensures { result ≡ is_some (first_in kind warnings.now) }
{
    warnings.first(kind).is_some()
}
