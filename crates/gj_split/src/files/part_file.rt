//! A file that is written beside its place.
ghost use Rattle.std.specs.Prelude.{◌≡◌, IfOk};
ghost use Rattle.gj_split.specs.Parts.{ending_of, part_in};

use std::alloc::{AllocError, Global};
use std::fs::{self, File, OpenOptions};
use std::io::{self, BufWriter, Write};

/// A file that is written.
#[derive(Clone, Copy)]
pub enum Part {
    Valid,
    Broken,
    List,
}

impl Part {
    /// The part of its name after the prefix.
    pub fn ending(self) -> &'static str
        ensures { result.now ≡ ending_of self }
    {
        match self {
            Part::Valid => ".valid.geojsons",
            Part::Broken => ".broken.geojsons",
            Part::List => ".broken.json",
        }
    }

    /// Its name, given the prefix.
    pub fn name(self, alloc: Global, prefix: &str) -> Result<String, AllocError> {
        let mut name = String::from_str(alloc, prefix)?;
        name.push_str(self.ending())?;
        Ok(name)
    }
}

/// The system's number for a file that is too large (`EFBIG`).
const TOO_LARGE: i32 = 27;

/// A new file for a part. It is written by way of a buffer, and up to the size that is allowed to the process: the system
/// would end the process at the next byte.
#[derive(Drop)]
pub struct PartFile {
    part: Part,
    out: BufWriter<File>,
    name: String,
    /// How many more bytes it may have.
    left: u64,
}

impl PartFile {
    /// Makes the file of a part, with this prefix.
    pub fn new(rt: &HostRuntime, prefix: &str, part: Part) -> io::Result<PartFile>
        ensures { IfOk result (λ file. part_in file ≡ part) }
    {
        let name = part.name(rt.alloc(), prefix)?;
        let mut options = OpenOptions::new();
        options.write(true).create_new(true);
        let file = options.open(rt, name.as_str())?;
        Ok(PartFile {
            part,
            out: BufWriter::new(rt.alloc(), file)?,
            name,
            left: most_bytes(rt),
        })
    }

    /// The part.
    pub fn part(&self) -> Part
        ensures { result ≡ part_in self.now }
    {
        self.part
    }

    /// Gives the file this name. A file of that name is replaced.
    pub fn rename(&self, rt: &HostRuntime, name: &str) -> io::Result<()> {
        fs::rename(rt, self.name.as_str(), name)
    }
}

impl Write for PartFile {
    fn write(&mut self, bytes: &[u8]) -> io::Result<usize> {
        if bytes.len() as u64 > self.left {
            return Err(io::Error::from_raw_os_error(TOO_LARGE));
        }
        let count = self.out.write(bytes)?;
        self.left -= count as u64;
        Ok(count)
    }

    fn flush(&mut self) -> io::Result<()> {
        self.out.flush()
    }
}

/// The size that the process may give a file: the system lists it, and says `unlimited` of none.
fn most_bytes(rt: &HostRuntime) -> u64 {
    let Ok(limits) = fs::read_to_string(rt, "/proc/self/limits") else {
        return u64::MAX;
    };
    for line in limits.as_str().lines() {
        if let Some(rest) = line.strip_prefix("Max file size") {
            let soft = rest.split_ascii_whitespace().next().unwrap_or("");
            return soft.parse().unwrap_or(u64::MAX);
        }
    }
    u64::MAX
}
