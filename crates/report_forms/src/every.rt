//! What is reported of each feature or record of a file, after the report of the file: what the forms have in common.
ghost use Rattle.std.specs.Prelude.{◌≡◌, OnOk};
ghost use Rattle.geolint_report.specs.Line.{Adds};
ghost use Rattle.report_forms.specs.Forms.Features.{spot_at, path_at, note_word, note_fails, item_text, and_more, id_behind, some_id, and_byte, entry_text};
ghost use Rattle.report_forms.specs.Forms.Messages.{and_path};

use crate::options::Options;
use crate::texts::{put_and_path, put_name};
use geolint_report::every::cursor::Mark;
use geolint_report::every::listing::{Item, Note};
use geolint_report::line::{put, put_number};
use geolint_report::sites::Spot;
use geolint_report::texts::Code;
use gj_json::Path;
use std::alloc::AllocError;

/// A note on a feature or a record of a file, and where its place stands, as far as that was found.
#[derive(Drop)]
pub struct Entry<'a> {
    pub name: &'a [u8],
    pub note: Note,
    pub mark: Option<Mark>,
    /// A feature's `id` as it is written, in its first characters: empty where it has none or the source cannot be read again.
    pub id: &'a [u8],
}

/// The line and the column of a place, where they are known.
pub fn spot_at(mark: Option<Mark>) -> Option<Spot>
    ensures { result ≡ spot_at mark }
{
    match mark {
        Some(mark) => Some(mark.spot),
        None => None,
    }
}

/// The path of a place, where it is known.
pub fn path_at(mark: Option<Mark>) -> Option<Path>
    ensures { result ≡ path_at mark }
{
    match mark {
        Some(mark) => mark.path,
        None => None,
    }
}

/// The word for what is reported.
pub fn note_word(code: Code) -> &'static [u8]
    ensures { result.now ≡ note_word code }
{
    match code {
        Code::Kind(_) => b"warning",
        Code::Cause(_) => b"not JSON",
        _ => b"broken",
    }
}

/// Whether what is reported fails a file.
pub fn note_fails(code: Code, options: &Options) -> bool
    ensures { result ≡ note_fails options.now.strictness code }
{
    match code {
        Code::Kind(kind) => options.strictness.fails(kind),
        _ => true,
    }
}

/// Puts the number of a feature or a record, after its word.
#[tactic(auto, unfolding(crate::specs::Forms::Features::item_text))]
pub fn put_item(item: Item, line: &mut Vec<u8>) -> Result<(), AllocError>
    ensures { OnOk result (Adds line.old line.new (item_text item)) }
{
    put(line, item.word())?;
    put(line, b" ")?;
    put_number(line, item.number())
}

/// Puts that `count` more are not reported.
#[tactic(auto, unfolding(crate::specs::Forms::Features::and_more))]
pub fn put_and_more(count: u64, line: &mut Vec<u8>) -> Result<(), AllocError>
    ensures { OnOk result (Adds line.old line.new (and_more count)) }
{
    put(line, b"and ")?;
    put_number(line, count)?;
    put(line, b" more")
}

/// Puts the word for what is reported.
pub fn put_word(code: Code, line: &mut Vec<u8>) -> Result<(), AllocError>
    ensures { OnOk result (Adds line.old line.new (note_word code)) }
{
    put(line, note_word(code))
}

/// Puts the path, where it is known.
pub fn put_path_at(mark: Option<Mark>, line: &mut Vec<u8>) -> Result<(), AllocError>
    ensures { OnOk result (Adds line.old line.new (and_path (path_at mark))) }
{
    put_and_path(path_at(mark), line)
}

/// Puts an `id` after these bytes, where there is one.
pub fn put_id_behind(before: &[u8], id: &[u8], line: &mut Vec<u8>) -> Result<(), AllocError>
    ensures { OnOk result (Adds line.old line.new (id_behind before.now id.now)) }
{
    if id.is_empty() {
        Ok(())
    } else {
        put_some_id(before, id, line)
    }
}

#[tactic(auto, unfolding(crate::specs::Forms::Features::some_id))]
fn put_some_id(before: &[u8], id: &[u8], line: &mut Vec<u8>) -> Result<(), AllocError>
    ensures { OnOk result (Adds line.old line.new (some_id before.now id.now)) }
{
    put(line, before)?;
    put_name(id, line)
}

/// Puts what a message says, as it is read: no character is escaped.
#[tactic(auto, unfolding(crate::specs::Forms::Features::entry_text))]
pub fn put_entry_text(entry: &Entry<'_>, line: &mut Vec<u8>) -> Result<(), AllocError>
    ensures { OnOk result (Adds line.old line.new (entry_text entry.now)) }
{
    entry.note.told.code.put_text(line)?;
    put(line, b", ")?;
    put_item(entry.note.item, line)?;
    put_id_behind(b", id ", entry.id, line)?;
    put_and_byte(entry.note.told.place, line)?;
    put_path_at(entry.mark, line)
}

/// Puts the offset.
#[tactic(auto, unfolding(crate::specs::Forms::Features::and_byte))]
pub fn put_and_byte(place: u64, line: &mut Vec<u8>) -> Result<(), AllocError>
    ensures { OnOk result (Adds line.old line.new (and_byte place)) }
{
    put(line, b", at byte ")?;
    put_number(line, place)
}
