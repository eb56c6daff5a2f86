use thiserror::Error;

/// A read failed.
#[derive(Clone, Copy, Debug, PartialEq, Eq, Error)]
#[error("read failed after {offset} bytes")]
pub struct ReadFault {
    /// The number of bytes that had come before.
    pub offset: u64,
}

/// A write failed.
#[derive(Clone, Copy, Debug, PartialEq, Eq, Error)]
#[error("write failed after {written} bytes")]
pub struct WriteFault {
    /// The number of bytes of the report that had gone out before.
    pub written: u64,
}

/// The reason why a run ended before its report was whole.
#[derive(Clone, Copy, Debug, PartialEq, Eq)]
pub enum RunFault {
    /// Nothing was written.
    Read(ReadFault),
    /// The verdict was there, but not all of its report went out.
    Write(WriteFault),
}

/// The reason why the program gives no report. Its text is the line for standard error.
#[derive(Clone, Copy, Debug, PartialEq, Eq, Error)]
pub enum ProgramFault {
    /// The arguments are not those of the command.
    #[error("{USAGE}")]
    Usage,
    /// The file could not be opened.
    #[error("geolint: cannot open the file")]
    Open,
    /// A read failed, and nothing was written.
    #[error("geolint: {0}")]
    Read(ReadFault),
    /// A write failed.
    #[error("geolint: {0}")]
    Write(WriteFault),
    /// Memory was refused.
    #[error("geolint: out of memory")]
    Memory,
}

/// How the program is called.
pub const USAGE: &str =
    "usage: geolint (file or stdin) [--strict] [--quick] [--seq] [--max-bytes N] [PATH]";
