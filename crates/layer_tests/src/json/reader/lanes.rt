//! Runs of bytes of one kind that end at each place.
use super::in_two;
use gj_json::{Limits, plain_run};

/// A stopping byte at each index of slices of 0 to 130 bytes.
#[test]
fn stops_at_each_index(rt: HostRuntime) {
    for length in 0..=130usize {
        let mut bytes = [b'x'; 130];
        assert!(rt; plain_run(&bytes[..length]) == length);
        for at in 0..length {
            for stop in [0u8, 0x1F, b'"', b'\\'] {
                bytes[at] = stop;
                assert!(rt; plain_run(&bytes[..length]) == at);
            }
            for on in [0x80u8, 0xFF] {
                bytes[at] = on;
                assert!(rt; plain_run(&bytes[..length]) == length);
            }
            bytes[at] = b'x';
        }
    }
}

/// Where a text of these bytes is refused.
fn place(bytes: &[u8]) -> Option<u64> {
    match in_two(Limits::usual(), bytes, b"") {
        None => None,
        Some((_, place)) => Some(place),
    }
}

/// White space of each kind before a byte that is not allowed there.
#[test]
fn white_space_stops_at_each_index(rt: HostRuntime) {
    for white in [b' ', b'\t', b'\n', b'\r'] {
        let mut bytes = [white; 50];
        assert!(rt; place(&bytes) == Some(50));
        for at in 0..50usize {
            for stop in [0u8, 0x0B, 0x1F, b'!', 0xA0] {
                bytes[at] = stop;
                assert!(rt; place(&bytes) == Some(at as u64));
            }
            bytes[at] = white;
        }
    }
}

/// A string of characters of one to three bytes, with a quote at each place: after whole characters it ends there.
#[test]
fn strings_end_behind_whole_characters(rt: HostRuntime) {
    let row = b"\xC3\xA9\xE6\x9D\xB1x";
    let is_whole = [true, false, true, false, false, true];
    for at in 0..=90usize {
        let mut bytes = [b'"'; 96];
        for index in 1..96usize {
            bytes[index] = row[(index - 1) % 6];
        }
        bytes[at + 1] = b'"';
        let behind = if is_whole[at % 6] { at + 2 } else { at + 1 };
        assert!(rt; place(&bytes) == Some(behind as u64), "{at}");
    }
}

/// A string of escapes of two and of six bytes, with another byte at each place.
#[test]
fn escapes_stop_at_each_index(rt: HostRuntime) {
    let row = b"\\n\\u00e9";
    let begins = [true, false, true, false, false, false, false, false];
    let mut bytes = [b'"'; 146];
    for index in 0..144usize {
        bytes[index + 1] = row[index % 8];
    }
    assert!(rt; place(&bytes) == None);
    for at in 0..144usize {
        bytes[at + 1] = 1;
        assert!(rt; place(&bytes) == Some(at as u64 + 1), "{at}");
        bytes[at + 1] = b'g';
        let wanted = if begins[at % 8] {
            None
        } else {
            Some(at as u64 + 1)
        };
        assert!(rt; place(&bytes) == wanted, "{at}");
        bytes[at + 1] = row[at % 8];
    }
}
