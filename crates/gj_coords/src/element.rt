//! A value that is read past.
ghost use Rattle.std.specs.Prelude.{◌≡◌};
ghost use Rattle.gj_coords.specs.Internal.ElementReader.{levels_after as levels_after_event};

use gj_json::{Event, What};

/// How many arrays and objects are open after the event, as far as the number holds it.
fn levels_after(levels: u64, what: &What) -> u64
    ensures { result ≡ levels_after_event levels what.now }
{
    match what {
        What::OpenArray | What::OpenObject => {
            if levels < u64::MAX {
                levels + 1
            } else {
                levels
            }
        }
        What::CloseArray | What::CloseObject => levels.saturating_sub(1),
        _ => levels,
    }
}

/// Reads past one value, and holds its first event.
#[derive(Clone, Copy)]
pub struct Element {
    pub first: Event,
    pub started: bool,
    pub levels: u64,
}

impl Element {
    ghost use Rattle.gj_coords.specs.Internal.ElementReader.{due, element_after, element_ended};

    /// No event has come.
    pub fn new() -> Element
        ensures { result ≡ due }
    {
        Element {
            first: Event {
                place: 0,
                what: What::Null,
            },
            started: false,
            levels: 0,
        }
    }

    /// Takes one event, whatever it is.
    pub fn event(&mut self, event: &Event)
        ensures { self.new ≡ element_after self.old event.now }
    {
        if !self.started {
            self.first = *event;
            self.started = true;
        }
        self.levels = levels_after(self.levels, &event.what);
    }

    /// Whether the value has ended.
    pub fn done(&self) -> bool
        ensures { result ≡ element_ended self.now }
    {
        self.started && self.levels == 0
    }
}
