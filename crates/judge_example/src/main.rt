//! An example of a program over the libraries: it validates standard input as it comes, and counts what is in it.
#![tactic(auto)]

ghost use Rattle.std.specs.Prelude.{◌≡◌, ◌<◌, ◌^◌, length};

use gj_json::{Event, EventSink, JsonFault, Limits, Reader};
use gj_rules::{Linter, Progress, Verdict};
use std::io::{self, Read};

/// Validates what the reader gives, piece by piece, and reads no more once it is refused.
fn judge<R: Read>(reader: &mut R, limits: Limits) -> io::Result<Verdict> {
    let mut linter = Linter::new(limits);
    let mut piece = [0; 4096];
    for _ in 0..u64::MAX {
        let count = reader.read(&mut piece)?;
        if count == 0 {
            break;
        }
        if let Progress::Refused(fault) = linter.feed(&piece[..count]) {
            return Ok(Verdict::NotJson(fault));
        }
    }
    Ok(linter.finish())
}

/// Counts the events that it is given.
#[derive(Drop)]
struct EventCount {
    count: u64,
}

impl EventSink for EventCount {
    ghost heard = { λ sink events. length events < 2 ^ 64 → sink.count ≡ length events };

    fn tell(&mut self, _event: Event) {
        self.count = self.count.saturating_add(1);
    }

    fn ignored(&self) -> u16 {
        0
    }

    fn pass(&mut self, _left: u16) {}
}

/// The number of events of a JSON text, or where and why the bytes are no such text.
fn count_events(text: &[u8], limits: Limits) -> Result<u64, JsonFault> {
    let mut reader = Reader::new(limits);
    let mut sink = EventCount { count: 0 };
    reader.feed(text, &mut sink)?;
    match reader.finish() {
        // A number at the end of a text is known only there.
        Ok(Some(last)) => sink.tell(last),
        Ok(None) => {}
        Err(fault) => return Err(fault),
    }
    Ok(sink.count)
}

fn main(rt: HostRuntime) -> io::Result<()> {
    let limits = Limits::usual();
    match judge(&mut rt.stdin(), limits)? {
        Verdict::Valid(_) => println!(rt; "yes")?,
        Verdict::Broken(fault) => println!(rt; "no: {:?} at {}", fault.rule, fault.place)?,
        Verdict::NotJson(fault) => println!(rt; "no: {:?} at {}", fault.cause, fault.place)?,
    }
    if let Ok(count) = count_events(b"[1,{\"a\":2}]", limits) {
        println!(rt; "{count} events")?;
    }
    Ok(())
}
