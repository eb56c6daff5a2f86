//! Files and folders by their names. No clause says what the system says of them, or gives.

ghost use Rattle.std.specs.Prelude.{◌≡◌, ◌↔◌, IfOk, IsTrue, string_bytes};
ghost use Rattle.std.specs.IoError.{error_kind};
ghost use Rattle.std.specs.declared.io.ErrorKind.{ErrorKind};

use std::alloc::Global;
use std::fs::{self, File, Files, Metadata};
use std::io::{self, ErrorKind, Read};
use std::path::PathBuf;
use std::str;

/// The system's number for bytes that are no text (`EILSEQ`).
const NO_TEXT: i32 = 84;

/// What a name leads to, links followed. An error is answered if the name is not Unicode text, if nothing is there, or if the
/// system does not allow a look at it.
pub fn look_up(rt: &HostRuntime, name: &[u8]) -> io::Result<(Spelled, Metadata)> {
    let spelled = spell(rt.alloc(), name)?;
    let metadata = spelled.metadata(rt)?;
    Ok((spelled, metadata))
}

/// The folder whose files are shown, without links: the one that is given, or of a name in a list the one in which it stands. None
/// where the system does not say.
pub fn shown_folder(rt: &HostRuntime, name: &[u8], is_given: bool) -> Option<PathBuf> {
    if is_given {
        return resolved(rt, name);
    }
    match name.iter().rposition(|byte| *byte == b'/') {
        Some(end) => resolved(rt, &name[..=end]),
        None => resolved(rt, b"."),
    }
}

/// Where a name leads to, without links.
fn resolved(rt: &HostRuntime, name: &[u8]) -> Option<PathBuf> {
    let spelled = spell(rt.alloc(), name).ok()?;
    fs::canonicalize(rt, spelled.as_str()).ok()
}

/// Whether a name was not found because it is a link that leads nowhere.
pub fn is_lost_link(rt: &HostRuntime, name: &[u8], error: &io::Error) -> bool {
    match error.kind() {
        ErrorKind::NotFound | ErrorKind::FilesystemLoop => {
            match spell(rt.alloc(), name).and_then(|spelled| spelled.link_metadata(rt)) {
                Ok(metadata) => metadata.is_symlink(),
                Err(_) => false,
            }
        }
        _ => false,
    }
}

/// A name as the text that the library takes.
#[derive(Drop)]
pub struct Spelled {
    text: String,
}

/// The text of a name. std opens only names that are Unicode text, so any other name is an error.
pub fn spell(alloc: Global, name: &[u8]) -> io::Result<Spelled>
    ensures { IfOk result (λ spelled. string_bytes spelled.text ≡ name.now) }
{
    match str::from_utf8(name) {
        Ok(text) => Ok(Spelled {
            text: String::from_str(alloc, text)?,
        }),
        Err(_) => Err(io::Error::from_raw_os_error(NO_TEXT)),
    }
}

impl Spelled {
    ghost use Rattle.std.specs.Prelude.{◌≡◌, string_bytes};

    /// The name as std takes it.
    pub fn as_str(&self) -> &str
        ensures { result.now ≡ string_bytes self.now.text }
    {
        self.text.as_str()
    }

    /// What the system says of what the name leads to, links followed. An error is answered if nothing is there, or if it does
    /// not allow a look.
    pub fn metadata(&self, rt: &HostRuntime) -> io::Result<Metadata> {
        fs::metadata(rt, self.text.as_str())
    }

    /// Of a link itself.
    fn link_metadata(&self, rt: &HostRuntime) -> io::Result<Metadata> {
        fs::symlink_metadata(rt, self.text.as_str())
    }

    /// Whether what the name leads to stands in this folder, links followed. Where the system does not say, it does not.
    pub fn stands_in(&self, rt: &HostRuntime, folder: &Option<PathBuf>) -> bool {
        match (folder, fs::canonicalize(rt, self.text.as_str())) {
            (Some(folder), Ok(path)) => path.starts_with(folder),
            _ => false,
        }
    }

    /// Opens it for reading. An error is answered where the system refuses.
    pub fn open(&self, rt: &HostRuntime) -> io::Result<File> {
        fs::open(rt, self.text.as_str())
    }

    /// Opens it, and looks at what was opened: between a look at a name and this, another file can take the name.
    pub fn open_and_look(&self, rt: &HostRuntime) -> io::Result<(File, Metadata)> {
        let file = self.open(rt)?;
        let metadata = file.metadata()?;
        Ok((file, metadata))
    }

    /// The names of a folder's entries, in the order of their bytes.
    pub fn entries(&self, rt: &HostRuntime) -> io::Result<Vec<Vec<u8>>> {
        let path = format!(in rt.alloc(); "{}/", self.text)?;
        let mut folder = rt.open_dir(path.as_str())?;
        let mut names = Vec::new(rt.alloc());
        let mut room = [0; 8192];
        for _ in 0..u64::MAX {
            let count = folder.read(&mut room)?;
            if count == 0 {
                break;
            }
            for name in room[..count].split(|byte| *byte == 0) {
                if !name.is_empty() && name != b".".as_slice() && name != b"..".as_slice() {
                    names.push(Vec::from_slice(rt.alloc(), name)?)?;
                }
            }
        }
        names.sort_unstable();
        Ok(names)
    }
}

/// The system's reason, without its number. The words are the system's, so no clause says them.
pub fn reason(alloc: Global, error: &io::Error) -> io::Result<String> {
    let text = format!(in alloc; "{error}")?;
    let end = text.as_str().find(" (os error").unwrap_or(text.len());
    let words = text.as_str().get(..end).unwrap_or("");
    Ok(String::from_str(alloc, words)?)
}

/// Whether memory was refused.
pub fn is_memory(error: &io::Error) -> bool
    ensures { IsTrue result ↔ (error_kind error.now ≡ ErrorKind.OutOfMemory) }
{
    error.kind() == ErrorKind::OutOfMemory
}
