//! How far a piece reaches with few commas in it.
ghost use Rattle.std.specs.Prelude.{◌≡◌, ◌<◌, ◌≤◌, length, take};
ghost use Rattle.gj_rules.specs.FeatureFindings.{commas};
ghost use Rattle.geolint_c.specs.declared.commas.TheConstants.{LANES};

use std::simd::prelude::*;

/// How many bytes are looked at together.
const LANES: usize = 64;

/// How many of the bytes are commas.
#[inline(always)]
fn commas_in(lanes: u8x64) -> usize
    ensures value { result ≡ commas lanes }
    ensures few { result ≤ LANES }
{
    lanes.simd_eq(u8x64::splat(b',')).to_bitmask().count_ones() as usize
}

/// How many bytes at the start of a piece have fewer commas than `most`. It looks at 64 together, and so it may stop a little early.
pub fn few_commas(piece: &[u8], most: usize) -> usize
    requires lanes { LANES < most }
    requires nonempty { 0 < length piece.now }
    ensures some { 0 < result }
    ensures within { result ≤ length piece.now }
    ensures few { commas (take result piece.now) < most }
{
    let (blocks, rest) = piece.as_chunks::<LANES>();
    let mut index = 0;
    let mut count = 0;
    while index < blocks.len() {
        count += commas_in(u8x64::from_array(blocks[index]));
        if count >= most {
            return index * LANES;
        }
        index += 1;
    }
    if count + rest.len() < most {
        piece.len()
    } else {
        index * LANES
    }
}
