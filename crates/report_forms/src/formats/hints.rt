//! What is said of a hint: its text, where the name of the file stands in its commands.
ghost use Rattle.std.specs.Prelude.{◌≡◌, ◌++◌, IfOk, OnOk, drop};
ghost use Rattle.std.specs.List.{flat_map, list_all};
ghost use Rattle.geolint_report.specs.Line.{Adds};
ghost use Rattle.report_forms.specs.Forms.Hints.{and_hint, file_word, has_word, hint_on, hint_text, in_quotes, is_plain_in_word, named, quoted, shell_word};
ghost use Rattle.report_forms.specs.Forms.Hints.{some_hint};

use crate::texts::put_name;
use geolint_report::line::{put, put_all};
use geolint_report::texts::Code;
use gj_coords::Kind;
use gj_hints::Hint;
use std::alloc::{AllocError, Global};

/// The hint on what is reported.
pub fn hint_on(code: Code, hint: Option<Hint>) -> Option<Hint>
    ensures { result ≡ hint_on code hint }
{
    match code {
        Code::Kind(Kind::W5) => hint,
        Code::Kind(_) => None,
        _ => hint,
    }
}

/// Puts the hint of a message on a file of this name, where there is one.
pub fn put_and_hint(
    alloc: Global,
    name: &[u8],
    hint: Option<Hint>,
    line: &mut Vec<u8>,
) -> Result<(), AllocError>
    ensures { OnOk result (Adds line.old line.new (and_hint name.now hint)) }
{
    match hint {
        Some(hint) => put_some_hint(alloc, name, hint, line),
        None => Ok(()),
    }
}

#[tactic(auto, unfolding(crate::specs::Forms::Hints::some_hint))]
fn put_some_hint(
    alloc: Global,
    name: &[u8],
    hint: Hint,
    line: &mut Vec<u8>,
) -> Result<(), AllocError>
    ensures { OnOk result (Adds line.old line.new (some_hint name.now hint)) }
{
    put(line, b"; hint: ")?;
    put_hint_text(alloc, name, hint, line)
}

/// Puts the text of a hint on a file of this name, as it is read: no character is escaped, and none is a control.
pub fn put_hint_text(
    alloc: Global,
    name: &[u8],
    hint: Hint,
    line: &mut Vec<u8>,
) -> Result<(), AllocError>
    ensures { OnOk result (Adds line.old line.new (hint_text name.now hint)) }
{
    let mut word = Vec::new(alloc);
    put_file_word(alloc, name, &mut word)?;
    put_named(hint.text().as_bytes(), word.as_slice(), line)
}

/// Puts a name as a word of a command: IN for standard input, for what would be an option and for a name that is not shown as it is.
fn put_file_word(alloc: Global, name: &[u8], line: &mut Vec<u8>) -> Result<(), AllocError>
    ensures { OnOk result (Adds line.old line.new (file_word name.now)) }
{
    if has_word(alloc, name)? {
        put_word(name, line)
    } else {
        put(line, b"IN")
    }
}

fn has_word(alloc: Global, name: &[u8]) -> Result<bool, AllocError>
    ensures { IfOk result (λ has. has ≡ has_word name.now) }
{
    let mut shown = Vec::new(alloc);
    put_name(name, &mut shown)?;
    Ok(!name.starts_with(b"-") && name == shown.as_slice())
}

/// Puts a name as a word of a POSIX shell.
fn put_word(name: &[u8], line: &mut Vec<u8>) -> Result<(), AllocError>
    ensures { OnOk result (Adds line.old line.new (shell_word name.now)) }
{
    if is_plain_word(name) {
        put(line, name)
    } else {
        put_quoted(name, line)
    }
}

/// Whether a word needs no quotes.
fn is_plain_word(name: &[u8]) -> bool
    ensures { result ≡ list_all is_plain_in_word name.now }
{
    name.iter().all(|byte| is_plain_in_word(*byte))
}

fn is_plain_in_word(byte: u8) -> bool
    ensures { result ≡ is_plain_in_word byte }
{
    byte.is_ascii_alphanumeric() || b"/-._".contains(&byte)
}

#[tactic(auto, unfolding(crate::specs::Forms::Hints::quoted))]
fn put_quoted(name: &[u8], line: &mut Vec<u8>) -> Result<(), AllocError>
    ensures { OnOk result (Adds line.old line.new (quoted name.now)) }
{
    put(line, b"'")?;
    put_all_in_quotes(name, line)?;
    put(line, b"'")
}

fn put_all_in_quotes(name: &[u8], line: &mut Vec<u8>) -> Result<(), AllocError>
    ensures { OnOk result (Adds line.old line.new (flat_map in_quotes name.now)) }
{
    for byte in name {
        put_in_quotes(*byte, line)?;
    }
    Ok(())
}

fn put_in_quotes(byte: u8, line: &mut Vec<u8>) -> Result<(), AllocError>
    ensures { OnOk result (Adds line.old line.new (in_quotes byte)) }
{
    match byte {
        b'\'' => put(line, b"'\\''"),
        other => put(line, &[other]),
    }
}

/// Puts a text, and the word for each IN after a space.
fn put_named(text: &[u8], word: &[u8], line: &mut Vec<u8>) -> Result<(), AllocError>
    ensures { OnOk result (Adds line.old line.new (named word.now 0 text.now)) }
{
    let mut skipped = 0;
    for i in 0..text.len() {
        let rest = &text[i..];
        skipped = put_next(rest, word, skipped, line)?;
    }
    Ok(())
}

/// Puts what stands for the next byte, or passes over it: how many after it are passed over too.
fn put_next(
    rest: &[u8],
    word: &[u8],
    skipped: usize,
    line: &mut Vec<u8>,
) -> Result<usize, AllocError>
    ensures { IfOk result (λ left. line.new.items ++ named word.now left (drop 1 rest.now) ≡ line.old.items ++ named word.now skipped rest.now) }
{
    if skipped > 0 {
        return Ok(skipped - 1);
    }
    if rest.starts_with(b" IN") {
        put_all(line, &[b" ", word])?;
        return Ok(2);
    }
    match rest {
        [byte, ..] => put(line, &[*byte])?,
        [] => {}
    }
    Ok(0)
}
