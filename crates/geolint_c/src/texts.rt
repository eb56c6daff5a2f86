//! The texts of rules, causes, kinds of warning and hints, each with a byte 0 at its end.
ghost use Rattle.std.specs.Prelude.{◌≡◌, [], map, get_or};
ghost use Rattle.geolint_c.specs.Hints.{hint_text};
ghost use Rattle.geolint_c.specs.Texts.{rule_text, cause_text, kind_text, version_text, with_zero};

use gj_hints::Hint;

/// The texts that a table has, in its order, after an empty one.
macro_rules! with_zeros {
    ($of:ident: $($name:ident => $text:literal,)*) => {
        &["\0", $(concat!($text, "\0")),*]
    };
}

const RULE_TEXTS: &[&str] = gj_coords::rule_texts!(with_zeros);

const CAUSE_TEXTS: &[&str] = &["\0", "syntax\0", "truncated\0", "too deep\0", "too long\0"];

const KIND_TEXTS: &[&str] = gj_coords::kind_texts!(with_zeros);

const HINT_TEXTS: &[&str] = gj_hints::hint_texts!(with_zeros);

/// The text of that number; an empty text where there is none.
fn text_at(texts: &[&'static str], number: usize) -> &'static [u8]
    ensures { result.now ≡ get_or (map (λ text. text.now) texts.now) number (with_zero []) }
{
    match texts.get(number) {
        Some(text) => text.as_bytes(),
        None => b"\0",
    }
}

/// What the rule of this number says; an empty text where there is no such rule.
#[unsafe(no_mangle)]
pub extern "C" fn geolint_rule_text(rule: u32, text: &mut &'static [u8])
    ensures { text.new.now ≡ with_zero (rule_text rule) }
{
    *text = text_at(RULE_TEXTS, rule as usize);
}

/// What the cause of this number says; an empty text where there is no such cause.
#[unsafe(no_mangle)]
pub extern "C" fn geolint_cause_text(cause: u32, text: &mut &'static [u8])
    ensures { text.new.now ≡ with_zero (cause_text cause) }
{
    *text = text_at(CAUSE_TEXTS, cause as usize);
}

/// What the kind of warning of this number says; an empty text where there is no such kind.
#[unsafe(no_mangle)]
pub extern "C" fn geolint_warning_text(kind: u32, text: &mut &'static [u8])
    ensures { text.new.now ≡ with_zero (kind_text kind) }
{
    *text = text_at(KIND_TEXTS, kind as usize);
}

/// The version of this library.
#[unsafe(no_mangle)]
pub extern "C" fn geolint_version_text(text: &mut &'static [u8])
    ensures { text.new.now ≡ with_zero version_text }
{
    *text = b"0.1.0\0";
}

/// What a hint says; an empty text where there is none.
#[tactic(auto, unfolding(gj_hints::specs::Texts::text_of))]
pub fn hint_text(hint: Option<Hint>) -> &'static [u8]
    ensures { result.now ≡ hint_text hint }
{
    match hint {
        Some(hint) => text_at(HINT_TEXTS, hint as usize + 1),
        None => b"\0",
    }
}
