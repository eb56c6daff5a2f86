//! Random small values. The pieces are cut at random, so a position comes as one `Flat` or by events, and it is found what is
//! found event by event.
use super::flat::Grouped;
use super::walked::Walked;
use gj_json::{Limits, Reader};
use std::process::Abort;

/// The length of a text: white space makes it up to that.
const ROOM: usize = 1024;

/// What is in an array: of the positions some are the same however they are written, some are too precise or out of
/// range, and some values are none.
const VALUES: [&[u8]; 16] = [
    b"[0,0]",
    b"[0.00,-0]",
    b"[0,1]",
    b"[1,1.0]",
    b"[1.0,1]",
    b"[1,0]",
    b"[1,0,5]",
    b"[1,0.0,5.0]",
    b"[1.12345678,2]",
    b"[1.1234567,2.123456789,3]",
    b"[1.12345670,2]",
    b"[181,0]",
    b"[0,-90.00000001]",
    b"[1e0,1]",
    b"[0,0,0,0]",
    b"7",
];

/// A random value, and what is left to draw.
#[derive(Drop)]
struct Drawn {
    bytes: [u8; ROOM],
    length: usize,
    random: u64,
}

impl Drawn {
    fn new(seed: u64) -> Drawn {
        Drawn {
            bytes: [b' '; ROOM],
            length: 0,
            random: seed,
        }
    }

    /// A number below 256.
    fn next(&mut self) -> u8 {
        self.random = self
            .random
            .wrapping_mul(6_364_136_223_846_793_005)
            .wrapping_add(1_442_695_040_888_963_407);
        (self.random >> 56) as u8
    }

    fn push(&mut self, text: &[u8]) {
        for byte in text {
            if let Some(to) = self.bytes.get_mut(self.length) {
                *to = *byte;
                self.length = self.length.saturating_add(1);
            }
        }
    }

    /// Draws arrays in one another, mostly of positions.
    fn fill(&mut self) {
        self.push(b"[");
        let mut levels: u8 = 1;
        let mut is_first = true;
        for _ in 0..48 {
            let drawn = self.next();
            if drawn >= 232 && levels > 1 {
                self.push(b"]");
                levels = levels.saturating_sub(1);
                is_first = false;
                continue;
            }
            if !is_first {
                self.push(b",");
            }
            is_first = drawn >= 216 && levels < 4;
            if is_first {
                self.push(b"[");
                levels = levels.saturating_add(1);
            } else {
                let kind = self.next() % 16;
                if let Some(value) = VALUES.get(kind as usize) {
                    self.push(value);
                }
            }
        }
        for _ in 0..levels {
            self.push(b"]");
        }
    }
}

fn expect_same(rt: &impl Abort, seed: u64) {
    let mut drawn = Drawn::new(seed);
    drawn.fill();
    let cut = drawn.next() as usize * 4;
    let walked = Walked::of(&[(&drawn.bytes, 1)]);
    let mut grouped = Grouped::new();
    let mut reader = Reader::new(Limits::usual());
    if let (Some(one), Some(other)) = (drawn.bytes.get(..cut), drawn.bytes.get(cut..)) {
        let _ = reader.feed(one, &mut grouped);
        let _ = reader.feed(other, &mut grouped);
    }
    grouped.expect_as(rt, &walked, "drawn");
}

#[test]
fn random_small_values(rt: HostRuntime) {
    for seed in 0..200 {
        expect_same(&rt, seed);
    }
}
