//! The limits, as a host says them: 0 stands for the most that can be.
ghost use Rattle.std.specs.Prelude.{◌≡◌};
ghost use Rattle.std.specs.Option.{SomeIff};
ghost use Rattle.geolint_c.specs.Options.{AreAllowed, limits_meant, or_most};

use gj_json::{Limits, MOST_LEVELS};

const MOST_BYTES: u64 = 1 << 60;

fn or_most(said: u64, most: u64) -> u64
    ensures { result ≡ or_most said most }
{
    if said == 0 { most } else { said }
}

/// The limits that the host says, where they are allowed: how deep a text may nest, and how many bytes it may have.
pub fn limits_of(max_depth: u32, max_bytes: u64) -> Option<Limits>
    ensures { SomeIff result (AreAllowed max_depth max_bytes) (limits_meant max_depth max_bytes) }
{
    let depth = or_most(max_depth as u64, MOST_LEVELS as u64);
    let bytes = or_most(max_bytes, MOST_BYTES);
    if depth > MOST_LEVELS as u64 {
        return None;
    }
    Limits::new(depth as u16, bytes)
}
