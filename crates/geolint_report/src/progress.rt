//! How far the run is, on a terminal's standard error.
ghost use Rattle.std.specs.Prelude.{◌≡◌, ◌-◌, option_map};

use std::io::{IsTerminal, Write};
use std::time::{Duration, Instant};

/// How long a line stands at least.
const PAUSE_MILLIS: u64 = 200;

/// What the line is made of. Where standard error is no terminal it is never written, and no clock is asked.
#[derive(Drop)]
pub struct Meter {
    rt: HostRuntime,
    /// When the run began, where standard error is a terminal.
    begun: Option<Instant>,
    shown: Option<Instant>,
    is_visible: bool,
    files: u64,
    bytes: u64,
    /// The bytes of the files that are still to be begun, where all are known.
    ahead: Option<u64>,
    /// The bytes of the file under way that are still to be read, where its size is known.
    left: Option<u64>,
    /// The bytes of the file under way that were read.
    read: u64,
}

impl Meter {
    /// Before the first file. It shows something only where standard error is a terminal.
    pub fn new(rt: HostRuntime) -> Meter {
        let begun = if rt.stderr().is_terminal() {
            Instant::now(&rt).ok()
        } else {
            None
        };
        Meter {
            rt,
            begun,
            shown: None,
            is_visible: false,
            files: 0,
            bytes: 0,
            ahead: None,
            left: None,
            read: 0,
        }
    }

    /// Whether the line is to be seen at all.
    pub fn is_shown(&self) -> bool {
        self.begun.is_some()
    }

    /// So many bytes are to be read in all.
    pub fn expect(&mut self, bytes: u64) {
        self.ahead = Some(bytes);
    }

    /// One file more is begun, of this size where it is known.
    pub fn add_file(&mut self, size: Option<u64>) {
        self.files = self.files.saturating_add(1);
        self.ahead = rest_of(self.ahead, size.unwrap_or(0));
        self.left = size;
        self.read = 0;
        self.look();
    }

    /// The file under way is read once more, no further than it was.
    pub fn read_again(&mut self) {
        self.left = Some(self.read);
    }

    /// So many bytes more are read.
    pub fn add_bytes(&mut self, count: usize) {
        self.bytes = self.bytes.saturating_add(count as u64);
        self.left = rest_of(self.left, count as u64);
        self.read = self.read.saturating_add(count as u64);
        self.look();
    }

    /// Shows the line where the last one has stood for long enough.
    fn look(&mut self) {
        if let Some(begun) = self.begun {
            let Ok(now) = Instant::now(&self.rt) else {
                return;
            };
            let since = match self.shown {
                None => begun,
                Some(shown) => shown,
            };
            if now.saturating_duration_since(since) >= Duration::from_millis(PAUSE_MILLIS) {
                self.shown = Some(now);
                self.is_visible = true;
                self.show(now.saturating_duration_since(begun));
            }
        }
    }

    fn show(&self, taken: Duration) {
        let millis = u64::try_from(taken.as_millis()).unwrap_or(u64::MAX).max(1);
        let rate = self.bytes / millis;
        let files = self.files;
        let megabytes = self.bytes / 1_000_000;
        let megabytes_a_second = rate / 1000;
        let _ = write!(
            self.rt.stderr(),
            "\rgeolint-files: {files} files, {megabytes} MB, {megabytes_a_second} MB/s"
        );
        if let Some(left) = self.left {
            let (ahead, of) = match self.ahead {
                Some(ahead) => (ahead, ""),
                None => (0, " in this file"),
            };
            let seconds = left.saturating_add(ahead) / rate.max(1) / 1000;
            let (minutes, seconds) = (seconds / 60, seconds % 60);
            // Below a second there is nothing to wait for.
            if minutes > 0 || seconds > 0 {
                let _ = write!(self.rt.stderr(), ", {minutes} min {seconds} s left{of}");
            }
        }
        let _ = self.rt.stderr().write_all(b"\x1b[K");
    }

    /// Takes the line away, so that what is written next stands alone.
    pub fn clear(&mut self) {
        if self.is_visible {
            self.is_visible = false;
            let _ = self.rt.stderr().write_all(b"\r\x1b[K");
        }
    }
}

/// What is left of a number that is known, after so much of it.
fn rest_of(known: Option<u64>, taken: u64) -> Option<u64>
    ensures { result ≡ option_map (λ number. number - taken) known }
{
    known.map(|number| number.saturating_sub(taken))
}
