//! What is at the place of a fault, and what is allowed there: the bytes are looked at once more.

ghost use Rattle.std.specs.Prelude.{◌≤◌, length};

use crate::judge::{Finding, Reading};
use crate::sites::Sites;
use crate::source::Peek;
use crate::texts::Code;
use crate::written::{MOST_BYTES, front, written_length};
use gj_coords::Rule;
use gj_json::{Cause, Event, EventSink, Known, Limits, Path, PathStep, Reader, What};
use itoa::Buffer;

mod refusal;

use refusal::{found_byte, found_end};

/// The most bytes of what is reported: two positions, and some words.
const MOST_FOUND: usize = 2 * MOST_BYTES + 64;

/// How many bytes are looked at together.
const PIECE: usize = 4096;

/// What is at the place of a fault, in words. It is advice: no verdict depends on it.
#[derive(Clone, Copy)]
pub struct Found {
    bytes: [u8; MOST_FOUND],
    count: usize,
    ghost within: { count ≤ length bytes },
}

impl Found {
    ghost use Rattle.std.specs.Prelude.{◌≡◌};
    ghost use Rattle.geolint_report.specs.Found.{found_bytes};

    fn nothing() -> Found {
        Found {
            bytes: [0; MOST_FOUND],
            count: 0,
        }
    }

    /// The words, as text in UTF-8 where the file is.
    pub fn bytes(&self) -> &[u8]
        ensures { result.now ≡ found_bytes self.now }
    {
        &self.bytes[..self.count]
    }

    /// Adds bytes, as many as there is room for.
    fn add(&mut self, bytes: &[u8]) {
        for byte in bytes {
            if self.count < MOST_FOUND {
                self.bytes[self.count] = *byte;
                self.count += 1;
            }
        }
    }

    /// Adds bytes on one line: the end of a line and the indent after it are left out, or after a comma one space.
    fn add_on_one_line(&mut self, bytes: &[u8]) {
        let mut last = b' ';
        let mut is_indent = false;
        for byte in bytes {
            match *byte {
                b'\n' | b'\r' => is_indent = true,
                b' ' | b'\t' if is_indent => {}
                shown => {
                    if is_indent && last == b',' {
                        self.add(b" ");
                    }
                    self.add(&[shown]);
                    last = shown;
                    is_indent = false;
                }
            }
        }
    }

    fn add_number(&mut self, number: u64) {
        let mut buffer = Buffer::new();
        self.add(buffer.format(number).as_bytes());
    }
}

/// What is at the place of what was found in a source that is read so, of which these sites were found.
pub fn found_at<S: Peek>(
    finding: &Finding,
    sites: &Sites,
    reading: Reading,
    source: &S,
) -> Option<Found> {
    let told = finding.fault()?;
    let site = sites.at(told.place)?;
    match told.code {
        Code::Rule(rule) => find_found(rule, told.place, site.path.as_ref(), source),
        Code::Cause(Cause::Syntax) => found_byte(told.place, reading.framing(), source),
        Code::Cause(Cause::Truncated) => found_end(told.place, reading.framing(), source),
        _ => None,
    }
}

/// What is at the place where a rule is broken. The path is that of the place.
fn find_found<S: Peek>(rule: Rule, place: u64, path: Option<&Path>, source: &S) -> Option<Found> {
    match rule {
        Rule::G2 | Rule::G3 => found_type(rule, place, path, source),
        Rule::G11 => found_shape(place, path, source),
        Rule::G12 | Rule::G13 | Rule::G14 | Rule::G21 => found_elements(rule, place, source),
        Rule::G15 => found_ends(place, source),
        Rule::G4 | Rule::G5 | Rule::G8 => None,
        Rule::G9 | Rule::G10 | Rule::G16 => found_value(place, source),
        _ => {
            let mut found = found_value(place, source)?;
            found.add(due(rule));
            Some(found)
        }
    }
}

/// What is due where a rule is broken, if it is the same at each place.
fn due(rule: Rule) -> &'static [u8] {
    match rule {
        Rule::G1 => b"; an object is due",
        Rule::G6 => b"; a geometry is due, an object or null",
        Rule::G7 => b"; properties are due, an object or null",
        Rule::G17 => b"; an array is due",
        Rule::G18 => b"; an object or null is due",
        Rule::G19 => b"; a string or a number is due",
        Rule::G20 => b"; a bbox is an array of numbers",
        _ => b"",
    }
}

/// The value at a place, as it is written but for the ends of lines.
fn found_value<S: Peek>(place: u64, source: &S) -> Option<Found> {
    let mut found = Found::nothing();
    let mut bytes = [0; MOST_BYTES];
    let count = source.peek(place, &mut bytes);
    if count == 0 {
        return None;
    }
    let read = front(&bytes, count);
    let shown = written_length(read);
    found.add_on_one_line(front(read, shown));
    Some(found)
}

const TOO_FEW: &[u8] = b"; one level of brackets is missing";

const TOO_MANY: &[u8] = b"; one level of brackets is too many";

/// A value in coordinates, and what is due there. An array stands in a position, and a number outside of each.
fn found_shape<S: Peek>(place: u64, path: Option<&Path>, source: &S) -> Option<Found> {
    let mut found = found_value(place, source)?;
    let (due, level): (&'static [u8], &'static [u8]) = match found.bytes[0] {
        b'[' => (b"; a number is due", TOO_MANY),
        b'-' | b'0'..=b'9' => (b"; an array is due", TOO_FEW),
        b'"' => (b"; numbers have no quotation marks", b""),
        _ => (b"; an array or a number is due", b""),
    };
    found.add(due);
    // If others stand before it, it is one by itself that is wrong.
    if is_first(path) {
        found.add(level);
    }
    Some(found)
}

/// Whether a path leads to the first element of an array.
fn is_first(path: Option<&Path>) -> bool {
    match path {
        Some(path) => matches!(
            path.step(path.len().saturating_sub(1)),
            Some(PathStep::Index(0))
        ),
        None => false,
    }
}

/// An object without a type, or a type, and the types that are allowed there (RFC 7946, section 1.4), by the path to it.
fn found_type<S: Peek>(rule: Rule, place: u64, path: Option<&Path>, source: &S) -> Option<Found> {
    let mut found = found_value(place, source)?;
    if let Some(path) = path {
        let (due, steps): (&'static [u8], u16) = match rule {
            Rule::G2 => (b"; a type is due: ", path.len()),
            _ => (b"; allowed here: ", path.len().saturating_sub(1)),
        };
        found.add(due);
        found.add(allowed_types(path, steps));
    }
    Some(found)
}

/// The types of the object that the first `steps` steps of a path lead to.
fn allowed_types(path: &Path, steps: u16) -> &'static [u8] {
    match member_around(path, steps) {
        Some(Known::Features) => b"Feature",
        Some(Known::Geometry | Known::Geometries) => {
            b"Point, MultiPoint, LineString, MultiLineString, Polygon, MultiPolygon, GeometryCollection"
        }
        _ =>
            b"FeatureCollection, Feature, or a geometry: Point, MultiPoint, LineString, MultiLineString, Polygon, MultiPolygon, GeometryCollection",
    }
}

/// The name of the member that holds the value after the first `steps` steps, or the array that it is in.
fn member_around(path: &Path, steps: u16) -> Option<Known> {
    let last = path.step(steps.checked_sub(1)?)?;
    match last {
        PathStep::Member(known) => Some(known),
        PathStep::Index(_) => match path.step(steps.checked_sub(2)?)? {
            PathStep::Member(known) => Some(known),
            PathStep::Index(_) => None,
        },
    }
}

/// What the events of an array show: how many elements it has, where the first and the last of them begin, and what the first one is.
#[derive(Clone, Copy)]
struct Elements {
    levels: u64,
    count: u64,
    first: u64,
    last: u64,
    first_what: What,
    has_ended: bool,
}

impl Elements {
    fn none() -> Elements {
        Elements {
            levels: 0,
            count: 0,
            first: 0,
            last: 0,
            first_what: What::Null,
            has_ended: false,
        }
    }

    /// An element or the array itself begins.
    fn begin(&mut self, event: Event) {
        if self.levels == 1 && !self.has_ended {
            if self.count == 0 {
                self.first = event.place;
                self.first_what = event.what;
            }
            self.last = event.place;
            self.count = self.count.saturating_add(1);
        }
    }

    fn close(&mut self) {
        self.levels = self.levels.saturating_sub(1);
        if self.levels == 0 {
            self.has_ended = true;
        }
    }
}

impl EventSink for Elements {
    ghost heard = { λ sink events. Unit {0} };

    fn tell(&mut self, event: Event) {
        match event.what {
            What::OpenArray | What::OpenObject => {
                self.begin(event);
                self.levels = self.levels.saturating_add(1);
            }
            What::CloseArray | What::CloseObject => self.close(),
            What::Name(_) => {}
            _ => self.begin(event),
        }
    }

    fn ignored(&self) -> u16 {
        0
    }

    fn pass(&mut self, _left: u16) {}
}

/// The elements of the array that begins at a place, if it ends.
fn elements_at<S: Peek>(place: u64, source: &S) -> Option<Elements> {
    let mut elements = Elements::none();
    let mut reader = Reader::new(Limits::usual());
    let mut piece = [0; PIECE];
    let mut at = place;
    for _ in 0..u64::MAX {
        let count = source.peek(at, &mut piece);
        // What follows the array is refused, and is no matter.
        let fed = reader.feed(&piece[..count], &mut elements);
        if elements.has_ended {
            return Some(elements);
        }
        if count == 0 || fed.is_err() {
            return None;
        }
        at = at.saturating_add(count as u64);
    }
    None
}

/// How many elements an array has that breaks one of these rules, and how many it must have.
fn found_elements<S: Peek>(rule: Rule, place: u64, source: &S) -> Option<Found> {
    let elements = elements_at(place, source)?;
    let mut found = Found::nothing();
    found.add_number(elements.count);
    found.add(if elements.count == 1 {
        b" element"
    } else {
        b" elements"
    });
    found.add(match rule {
        Rule::G12 => b"; a position has at least 2",
        Rule::G13 => b"; a line has at least 2",
        Rule::G21 => b"; a bbox has an even number, at least 4",
        _ => b"; a ring has at least 4",
    });
    match (rule, elements.first_what) {
        (Rule::G12, What::OpenArray) => found.add(TOO_MANY),
        (Rule::G13 | Rule::G14, What::Number(_)) => found.add(TOO_FEW),
        _ => {}
    }
    Some(found)
}

/// The first and the last position of a ring.
fn found_ends<S: Peek>(place: u64, source: &S) -> Option<Found> {
    let elements = elements_at(place, source)?;
    let mut found = Found::nothing();
    found.add(b"first position ");
    add_position(&mut found, place.saturating_add(elements.first), source);
    found.add(b", last position ");
    add_position(&mut found, place.saturating_add(elements.last), source);
    Some(found)
}

/// Adds the position at a place, as it is written, in its first bytes and on one line.
fn add_position<S: Peek>(found: &mut Found, place: u64, source: &S) {
    let mut bytes = [0; MOST_BYTES];
    let count = source.peek(place, &mut bytes);
    let read = front(&bytes, count);
    let end = read.iter().position(|byte| *byte == b']');
    let shown = match end {
        Some(end) => front(read, end.saturating_add(1)),
        None => read,
    };
    found.add_on_one_line(shown);
    if end.is_none() {
        found.add(b"..");
    }
}
