//! What the first event of a value shows.
ghost use Rattle.std.specs.Prelude.{◌≡◌};
ghost use Rattle.gj_rules.specs.Internal.EventSteps.{levels_in, word_in, opening_fault};

use gj_coords::{Fault, Rule};
use gj_json::{Known, What, Word};

/// How many levels the value opens.
#[inline]
pub fn levels_in(what: &What) -> u16
    ensures { result ≡ levels_in what.now }
{
    match what {
        What::OpenObject | What::OpenArray => 1,
        _ => 0,
    }
}

/// The type that it names as the value of `type`.
#[inline]
pub fn word_in(what: &What) -> Word
    ensures { result ≡ word_in what.now }
{
    match *what {
        What::Text(word) => word,
        _ => Word::Other,
    }
}

/// Its fault as the value of the first member `name`, where the first event shows it.
#[inline(always)]
pub fn opening_fault(name: Known, what: &What, place: u64) -> Option<Fault>
    ensures { result ≡ opening_fault name what.now place }
{
    let rule = match name {
        Known::Geometries | Known::Features => Rule::G17,
        Known::Geometry => match what {
            What::Null => return None,
            _ => Rule::G1,
        },
        Known::Properties => match what {
            What::OpenObject | What::Null => return None,
            _ => Rule::G18,
        },
        Known::Id => match what {
            What::Text(_) | What::Number(_) => return None,
            _ => Rule::G19,
        },
        _ => return None,
    };
    Some(Fault { place, rule })
}
