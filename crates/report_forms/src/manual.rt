//! The manual in the program: what each rule, kind of warning and cause means, with a broken text and a fixed one.
//!
//! [`section`] gives that of a code. The texts are those of docs/rules.md, from which `.ci/explain --write` makes
//! `src/manual/sections.rt`.

ghost use Rattle.std.specs.Prelude.{◌≡◌, true, map};
ghost use Rattle.geolint_report.specs.declared.texts.TheConstants.{ALL};
ghost use Rattle.report_forms.specs.Manual.{are_named, section_of, text_at};
ghost use Rattle.report_forms.specs.declared.manual.sections.TheConstants.{SECTIONS};

mod sections;

use crate::manual::sections::SECTIONS;
use geolint_report::texts::Code;

/// The section of docs/rules.md on a code: lines, each with its LF. It is empty for [`Code::NotValid`].
pub fn section(code: Code) -> &'static str
    ensures { result.now ≡ section_of code }
{
    text_at(&SECTIONS, code.slot())
}

fn text_at(texts: &[&'static str], place: usize) -> &'static str
    ensures { result.now ≡ text_at (map (λ text. text.now) texts.now) place }
{
    match texts.get(place) {
        Some(text) => text,
        None => "",
    }
}

/// Each section begins with the name of its code. It does nothing: its contract is a law of the two tables.
#[tactic(auto, unfolding(geolint_report::specs::Texts::code_name))]
pub fn sections_are_named()
    ensures { are_named ALL (map (λ text. text.now) SECTIONS) ≡ true }
{}
