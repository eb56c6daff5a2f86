//! Positions given as one `Flat`, or many at a time by their cut values, beside the same given event by event.
use super::walked::{Row, Walked, WarnedRow, faults_of, warnings_of};
use crate::checks::holds;
use crate::coords::sample::tell_spaced;
use gj_coords::{Coordinates, SimpleFaults, Warnings};
use gj_json::{CutPosition, Event, EventSink, Flat};
use std::process::Abort;

/// Takes each `Flat` of the reader as one, and positions by their cut values, and counts these.
#[derive(Drop)]
pub struct Grouped {
    walk: Coordinates,
    cuts: usize,
}

impl Grouped {
    pub fn new() -> Grouped {
        Grouped {
            walk: Coordinates::new(),
            cuts: 0,
        }
    }

    /// Tests that it finds what the walk finds that was given each event by itself.
    pub fn expect_as(&self, rt: &impl Abort, walked: &Walked, row: &str) {
        holds(rt, self.walk.done(), row);
        holds(rt, self.faults() == faults_of(&walked.walk), row);
        holds(rt, self.warnings() == warnings_of(&walked.walk), row);
    }

    /// Sees that the six types' faults at once are those one by one, and that it is quiet only where there is no warning.
    fn expect_at_once(&self, rt: &impl Abort, text: &str) {
        let mut at_once = SimpleFaults::all(None);
        self.walk.faults(&mut at_once);
        let row = [
            at_once.point,
            at_once.multi_point,
            at_once.line_string,
            at_once.multi_line_string,
            at_once.polygon,
            at_once.multi_polygon,
        ];
        holds(rt, row == self.faults(), text);
        let none = self.warnings() == [Warnings::none(); 6];
        holds(rt, !self.walk.is_quiet() || none, text);
    }

    fn faults(&self) -> Row {
        faults_of(&self.walk)
    }

    fn warnings(&self) -> WarnedRow {
        warnings_of(&self.walk)
    }
}

impl EventSink for Grouped {
    ghost heard = { λ grouped events. Unit {0} };

    fn tell(&mut self, event: Event) {
        self.walk.take(&event);
    }

    fn tell_flat(&mut self, flat: &Flat) {
        self.walk.take_flat(flat);
    }

    fn tell_positions(&mut self, positions: &[CutPosition]) -> usize {
        let taken = self.walk.take_cuts(positions);
        self.cuts = self.cuts.saturating_add(taken);
        taken
    }

    fn ignored(&self) -> u16 {
        0
    }

    fn pass(&mut self, _left: u16) {}
}

/// Tests each value beside the same value event by event. Some of the positions come by their cut values.
fn expect_all(rt: &impl Abort, texts: &[&str]) {
    let mut cuts = 0;
    for text in texts.iter() {
        let walked = Walked::of_text(text);
        let mut grouped = Grouped::new();
        tell_spaced("[[[1,2],[3,4],[5,6],[7,8],[9,10]", &mut grouped);
        grouped.walk.again();
        grouped.cuts = 0;
        tell_spaced(text, &mut grouped);
        cuts = grouped.cuts.max(cuts);
        grouped.expect_as(rt, &walked, text);
        grouped.expect_at_once(rt, text);
    }
    holds(rt, 0 < cuts, "cut values");
}

/// Tests the value of the object's one member, which the reader gives as one `Flat`, beside the same value event by
/// event at its place.
fn expect_whole(rt: &impl Abort, object: &str, value: &str) {
    let walked = Walked::of_text(value);
    let mut only = OnlyFlats {
        grouped: Grouped::new(),
    };
    tell_spaced(object, &mut only);
    only.grouped.expect_as(rt, &walked, object);
    only.grouped.expect_at_once(rt, object);
}

/// Takes only what the reader gives as one `Flat`.
#[derive(Drop)]
struct OnlyFlats {
    grouped: Grouped,
}

impl EventSink for OnlyFlats {
    ghost heard = { λ only events. Unit {0} };

    fn tell(&mut self, _event: Event) {}

    fn tell_flat(&mut self, flat: &Flat) {
        self.grouped.tell_flat(flat);
    }

    fn ignored(&self) -> u16 {
        0
    }

    fn pass(&mut self, _left: u16) {}
}

/// An object, and the value of its one member at its place.
static WHOLE: [(&str, &str); 5] = [
    ("{\"a\":[1,2]}", "     [1,2] "),
    ("{\"a\":[1,2,3]}", "     [1,2,3] "),
    ("{\"a\":[-180.0,90]}", "     [-180.0,90] "),
    (
        "{\"a\":[180.00000001,2,3.123456789]}",
        "     [180.00000001,2,3.123456789] ",
    ),
    ("{\"a\":[1.12345678,90.5]}", "     [1.12345678,90.5] "),
];

#[test]
fn a_position_is_the_value(rt: HostRuntime) {
    for (object, value) in WHOLE.iter() {
        expect_whole(&rt, object, value);
    }
}

/// Values of any shape.
static TOLD: [&str; 15] = [
    "[1,2]",
    "[1,2,3]",
    "[1e7,2,3.123456789]",
    "[1,2,3,4]",
    "[1]",
    "[1,1e999]",
    "[[1,2],[3,4,5],[6,7],[8,9],[10,11],[12,13.00000001],[14,95],[1,2]]",
    "[[1,2],[3,4],[5,6],[7,8],[9,[1,2]],[1,2],{\"a\":[1,2]},[3,4],[1],[5,6]]",
    "[[[0,0],[10,0],[10,10],[5,11],[0,10],[0,0]],[[1,1],[1,2],[2,2],[2,1.5],[2,1],[1,1]]]",
    "[[[0,0],[0,10],[10,10],[11,5],[10,0],[0,0]],[[1,1],[2,1],[2,2],[1.5,2],[1,2],[1,1,1]]]",
    "[[[0,0],[10,0],[10,10],[5,11.123456789],[181,10],[0,0.00],[0,0]],[],[[1,2],[3,4],[5,6],[7,8],[1,2,3],[1,2]]]",
    "[[[[0,0],[10,0],[10,10],[5,11],[0,10],[0,0]],[[1,1],[1,2],[2,2],[2,1.5],[2,1],[1,1]]],[[[0,0],[10,0],[10,10],[5,11],[0,10.12345678],[0,1]]]]",
    "[[[[[1,2],[3,4],[5,6],[7,8],[9,10],[1,2]]]]]",
    "[[[1,2],[3,4],[5,6],[7,8],[9,10],7,[1,2],[3,4],[5,6]],[1,2],[3,4]]",
    "{\"a\":[[1,2],[3,4]]}",
];

#[test]
fn told_as_one_or_by_events(rt: HostRuntime) {
    expect_all(&rt, &TOLD);
}

/// Values with many positions: another sign, a corner like the first, a value out of range, more places.
static MANY: [&str; 13] = [
    "[[0.5,0.5],[1.5,0.5],[2.5,0.5],[3.5,0.5],[4.5,0.5],[5.5,0.5],[6.5,0.5],[7.5,0.5],[8.5,0.5],[9.5,0.5],[-9.5,0.25],[9.5,-1.5],[0.5,0.5]]",
    "[[[0.5,0.5],[1.5,0.5],[2.5,0.5],[3.5,0.5],[4.5,0.5],[5.5,0.5],[6.5,0.5],[7.5,0.5],[8.5,0.5],[9.5,0.5],[9.5,9.25],[-9.5,9.5],[0.5,0.5]]]",
    "[[[-0.5,-0.5],[-1.5,-0.5],[-2.5,-0.5],[-3.5,-0.5],[-4.5,-0.5],[-5.5,-0.5],[-6.5,-0.5],[-7.5,-0.5],[-8.5,-0.5],[-9.5,-0.5],[-9.5,-9.5],[-0.5,-0.5]]]",
    "[[[-0.5,0.5],[-1.5,0.5],[-2.5,0.5],[-3.5,0.5],[-4.5,0.5],[-5.5,0.5],[-6.5,0.5],[-7.5,0.5],[-8.5,0.5],[-9.5,0.5],[-9.5,9.5],[-0.5,0.75]]]",
    "[[[0.5,-0.5],[1.5,-0.5],[2.5,-0.5],[3.5,-0.5],[4.5,-0.5],[5.5,-0.5],[6.5,-0.5],[7.5,-0.5],[8.5,-0.5],[9.5,-0.5],[9.5,-9.5],[0.5,-0.5]]]",
    "[[[0.5,0.5],[1.5,0.5],[2.5,0.5],[3.5,0.5],[4.5,0.5],[5.5,0.5],[6.5,0.5],[7.5,0.5],[8.5,0.5],[9.5,0.5],[0.5,0.5],[8.5,9.5],[0.5,0.5]]]",
    "[[[0.5,0.5],[1.5,0.5],[2.5,0.5],[3.5,0.5],[4.5,0.5],[5.5,0.5],[6.5,0.5],[7.5,0.5],[8.5,0.5],[9.5,0.5],[180.5,0.5],[8.5,9.5],[0.5,0.5]]]",
    "[[[0.5,0.5],[1.5,0.5],[2.5,0.5],[3.5,0.5],[4.5,0.5],[5.5,0.5],[6.5,0.5],[7.5,0.5],[8.5,0.5],[9.5,0.5],[9.5,90.5],[8.5,9.5],[0.5,0.5]]]",
    "[[[0.5,0.5],[1.5,0.5],[2.5,0.5],[3.5,0.5],[4.5,0.5],[5.5,0.5],[6.5,0.5],[7.5,0.5],[8.5,0.5],[9.12345678,0.5],[9.5,9.12345678],[9.123456789,9.1234567890001],[0.5,0.5]]]",
    "[[[[0.5,0.5],[1.5,0.5],[2.5,0.5],[3.5,0.5],[4.5,0.5],[5.5,0.5],[6.5,0.5],[7.5,0.5],[8.5,0.5],[9.5,0.5],[9.5,9.25],[9.5,9.5],[0.5,0.5]]],[]]",
    "[[[0.5,0.5],[1.5,0.5],[2.5,0.5],[3.5,0.5],[4.5,0.5],[5.5,0.5],[6.5,0.5],[7.5,0.5],[8.5,0.5],[9.5,0.5],[9,9.25],[8.5,9.5],[0.5,0.5]]]",
    "[[[200.5,0.5],[201.5,0.5],[202.5,0.5],[203.5,0.5],[204.5,0.5],[205.5,0.5],[6.5,0.5],[7.5,0.5],[200.5,0.5]]]",
    "[[0.5,0.5],[1.5,0.5],[2.5,0.5],[3.5,0.5],[4.5,0.5],[5.5,0.5],[6.5,0.5],[7.5,0.5],[-0.5,0.5],[-1.5,0.5],[-2.5,0.5],[-3.5,0.5],[-4.5,0.5],[-5.5,0.5],[-6.5,0.5],[-7.5,0.5],[0.5,0.5]]",
];

#[test]
fn told_by_cut_values_or_by_events(rt: HostRuntime) {
    expect_all(&rt, &MANY);
}

/// Values whose arrays have spaces or a third number.
static SPACED: [&str; 19] = [
    // a space after each comma
    "[[[0.5, 0.5], [1.5, 0.5], [2.5, 0.5], [3.5, 0.5], [4.5, 0.5], [5.5, 0.5], [6.5, 0.5], [7.5, 0.5], [8.5, 0.5]]]",
    // the same with minus signs
    "[[[-0.5, -0.5], [-1.5, -0.5], [-2.5, -0.5], [-3.5, -0.5], [-4.5, -0.5], [-5.5, -0.5], [-6.5, -0.5], [-7.5, -0.5], [-8.5, -0.5]]]",
    // another sign in the middle
    "[[[0.5, 0.5], [1.5, 0.5], [2.5, 0.5], [3.5, 0.5], [4.5, 0.5], [5.5, 0.5], [6.5, 0.5], [-7.5, 0.5], [8.5, 0.5]]]",
    // spaces inside the brackets too
    "[[[ 0.5, 0.5 ], [ 1.5, 0.5 ], [ 2.5, 0.5 ], [ 3.5, 0.5 ], [ 4.5, 0.5 ], [ 5.5, 0.5 ], [ 6.5, 0.5 ], [ 7.5, 0.5 ], [ 8.5, 0.5 ]]]",
    // spaces inside the brackets, and none after commas
    "[[[ 0.5,0.5 ],[ 1.5,0.5 ],[ 2.5,0.5 ],[ 3.5,0.5 ],[ 4.5,0.5 ],[ 5.5,0.5 ],[ 6.5,0.5 ],[ 7.5,0.5 ],[ 8.5,0.5 ]]]",
    // a third number
    "[[[0.5,0.5,0],[1.5,0.5,-1.5],[2.5,0.5,120.3],[3.5,0.5,1.1234567],[4.5,0.5,-7],[5.5,0.5,0.0],[6.5,0.5,1e2],[7.5,0.5,0],[8.5,0.5,-1.5]]]",
    // a third number and spaces after commas
    "[[[0.5, 0.5, 0], [1.5, 0.5, -1.5], [2.5, 0.5, 120.3], [3.5, 0.5, 1.1234567], [4.5, 0.5, -7], [5.5, 0.5, 0.0], [6.5, 0.5, 1e2], [7.5, 0.5, 0], [8.5, 0.5, -1.5]]]",
    // a third number and all spaces
    "[[[ 0.5, 0.5, 0 ], [ 1.5, 0.5, -1.5 ], [ 2.5, 0.5, 120.3 ], [ 3.5, 0.5, 1.1234567 ], [ 4.5, 0.5, -7 ], [ 5.5, 0.5, 0.0 ], [ 6.5, 0.5, 1e2 ], [ 7.5, 0.5, 0 ], [ 8.5, 0.5, -1.5 ]]]",
    // a third number of eight places in the middle
    "[[[0.5,0.5,0],[1.5,0.5,-1.5],[2.5,0.5,120.3],[3.5,0.5,1.1234567],[4.5,0.5,-7],[5.5,0.5,0.0],[6.5,0.5,1e2],[7.5,0.5,1.12345678],[8.5,0.5,-1.5]]]",
    // two numbers in a run of three
    "[[[0.5,0.5,0],[1.5,0.5,-1.5],[2.5,0.5,120.3],[3.5,0.5,1.1234567],[4.5,0.5,-7],[5.5,0.5,0.0],[6.5,0.5,1e2],[7.5,0.5],[8.5,0.5,-1.5]]]",
    // three numbers in a run of two
    "[[[0.5,0.5],[1.5,0.5],[2.5,0.5],[3.5,0.5],[4.5,0.5],[5.5,0.5],[6.5,0.5],[7.5,0.5,0],[8.5,0.5]]]",
    // no space after a comma between numbers
    "[[[0.5, 0.5], [1.5, 0.5], [2.5, 0.5], [3.5, 0.5], [4.5, 0.5], [5.5, 0.5], [6.5, 0.5], [7.5,0.5], [8.5, 0.5]]]",
    // no space after a comma between arrays
    "[[[0.5, 0.5], [1.5, 0.5], [2.5, 0.5], [3.5, 0.5], [4.5, 0.5], [5.5, 0.5], [6.5, 0.5], [7.5, 0.5],[8.5, 0.5]]]",
    // no space after a bracket
    "[[[ 0.5, 0.5 ], [ 1.5, 0.5 ], [ 2.5, 0.5 ], [ 3.5, 0.5 ], [ 4.5, 0.5 ], [ 5.5, 0.5 ], [ 6.5, 0.5 ], [7.5, 0.5 ], [ 8.5, 0.5 ]]]",
    // no space before a bracket
    "[[[ 0.5, 0.5 ], [ 1.5, 0.5 ], [ 2.5, 0.5 ], [ 3.5, 0.5 ], [ 4.5, 0.5 ], [ 5.5, 0.5 ], [ 6.5, 0.5 ], [ 7.5, 0.5], [ 8.5, 0.5 ]]]",
    // no space before the bracket after a third
    "[[[ 0.5, 0.5, 0 ], [ 1.5, 0.5, 0 ], [ 2.5, 0.5, 0 ], [ 3.5, 0.5, 0 ], [ 4.5, 0.5, 0 ], [ 5.5, 0.5, 0 ], [ 6.5, 0.5, 0 ], [ 7.5, 0.5, 0], [ 8.5, 0.5, 0 ]]]",
    // two spaces before a bracket
    "[[[ 0.5, 0.5 ], [ 1.5, 0.5 ], [ 2.5, 0.5 ], [ 3.5, 0.5 ], [ 4.5, 0.5 ], [ 5.5, 0.5 ], [ 6.5, 0.5 ], [ 7.5, 0.5  ], [ 8.5, 0.5 ]]]",
    // two spaces between arrays
    "[[[0.5, 0.5],  [1.5, 0.5],  [2.5, 0.5],  [3.5, 0.5],  [4.5, 0.5],  [5.5, 0.5],  [6.5, 0.5],  [7.5, 0.5],  [8.5, 0.5]]]",
    // a line for each array
    "[[[0.5,0.5],\n[1.5,0.5],\n[2.5,0.5],\n[3.5,0.5],\n[4.5,0.5],\n[5.5,0.5],\n[6.5,0.5],\n[7.5,0.5],\n[8.5,0.5]]]",
];

#[test]
fn told_by_cut_values_with_spaces_or_a_third_number(rt: HostRuntime) {
    expect_all(&rt, &SPACED);
}

/// Values whose arrays stand over several lines.
static SPREAD: [&str; 12] = [
    // two spaces for each level
    "[\n  [\n    0.5,\n    0.5\n  ],\n  [\n    1.5,\n    0.5\n  ],\n  [\n    2.5,\n    0.5\n  ],\n  [\n    3.5,\n    0.5\n  ],\n  [\n    4.5,\n    0.5\n  ],\n  [\n    5.5,\n    0.5\n  ],\n  [\n    6.5,\n    0.5\n  ]\n]",
    // minus signs
    "[\n  [\n    -0.5,\n    -0.5\n  ],\n  [\n    -1.5,\n    -0.5\n  ],\n  [\n    -2.5,\n    -0.5\n  ],\n  [\n    -3.5,\n    -0.5\n  ],\n  [\n    -4.5,\n    -0.5\n  ],\n  [\n    -5.5,\n    -0.5\n  ],\n  [\n    -6.5,\n    -0.5\n  ]\n]",
    // a tab for each level
    "[\n\t[\n\t\t0.5,\n\t\t0.5\n\t],\n\t[\n\t\t1.5,\n\t\t0.5\n\t],\n\t[\n\t\t2.5,\n\t\t0.5\n\t],\n\t[\n\t\t3.5,\n\t\t0.5\n\t],\n\t[\n\t\t4.5,\n\t\t0.5\n\t],\n\t[\n\t\t5.5,\n\t\t0.5\n\t],\n\t[\n\t\t6.5,\n\t\t0.5\n\t]\n]",
    // a carriage return before each line feed
    "[\r\n [\r\n  0.5,\r\n  0.5\r\n ],\r\n [\r\n  1.5,\r\n  0.5\r\n ],\r\n [\r\n  2.5,\r\n  0.5\r\n ],\r\n [\r\n  3.5,\r\n  0.5\r\n ],\r\n [\r\n  4.5,\r\n  0.5\r\n ],\r\n [\r\n  5.5,\r\n  0.5\r\n ],\r\n [\r\n  6.5,\r\n  0.5\r\n ]\r\n]",
    // one space more before the numbers of the fifth
    "[\n  [\n    0.5,\n    0.5\n  ],\n  [\n    1.5,\n    0.5\n  ],\n  [\n    2.5,\n    0.5\n  ],\n  [\n    3.5,\n    0.5\n  ],\n  [\n     4.5,\n     0.5\n  ],\n  [\n    5.5,\n    0.5\n  ],\n  [\n    6.5,\n    0.5\n  ]\n]",
    // one space more before the bracket of the fifth
    "[\n  [\n    0.5,\n    0.5\n  ],\n  [\n    1.5,\n    0.5\n  ],\n  [\n    2.5,\n    0.5\n  ],\n  [\n    3.5,\n    0.5\n  ],\n  [\n    4.5,\n    0.5\n   ],\n  [\n    5.5,\n    0.5\n  ],\n  [\n    6.5,\n    0.5\n  ]\n]",
    // one space more at the end of a line of the fifth
    "[\n  [\n    0.5,\n    0.5\n  ],\n  [\n    1.5,\n    0.5\n  ],\n  [\n    2.5,\n    0.5\n  ],\n  [\n    3.5,\n    0.5\n  ],\n  [\n    4.5, \n    0.5\n  ],\n  [\n    5.5,\n    0.5\n  ],\n  [\n    6.5,\n    0.5\n  ]\n]",
    // another sign in the fifth
    "[\n  [\n    0.5,\n    0.5\n  ],\n  [\n    1.5,\n    0.5\n  ],\n  [\n    2.5,\n    0.5\n  ],\n  [\n    3.5,\n    0.5\n  ],\n  [\n    4.5,\n    -0.5\n  ],\n  [\n    5.5,\n    0.5\n  ],\n  [\n    6.5,\n    0.5\n  ]\n]",
    // a whole number in the fifth
    "[\n  [\n    0.5,\n    0.5\n  ],\n  [\n    1.5,\n    0.5\n  ],\n  [\n    2.5,\n    0.5\n  ],\n  [\n    3.5,\n    0.5\n  ],\n  [\n    4,\n    0.5\n  ],\n  [\n    5.5,\n    0.5\n  ],\n  [\n    6.5,\n    0.5\n  ]\n]",
    // a third number
    "[\n [\n  0.5,\n  0.5,\n  0\n ],\n [\n  1.5,\n  0.5,\n  0\n ],\n [\n  2.5,\n  0.5,\n  0\n ],\n [\n  3.5,\n  0.5,\n  0\n ],\n [\n  4.5,\n  0.5,\n  0\n ],\n [\n  5.5,\n  0.5,\n  0\n ],\n [\n  6.5,\n  0.5,\n  0\n ]\n]",
    // 33 bytes of white space before each number
    "[\n [\n                                0.5,\n                                0.5\n ],\n [\n                                1.5,\n                                0.5\n ],\n [\n                                2.5,\n                                0.5\n ],\n [\n                                3.5,\n                                0.5\n ]\n]",
    // 32 bytes of white space before each number
    "[\n [\n                               0.5,\n                               0.5\n ],\n [\n                               1.5,\n                               0.5\n ],\n [\n                               2.5,\n                               0.5\n ],\n [\n                               3.5,\n                               0.5\n ]\n]",
];

#[test]
fn told_by_cut_values_over_several_lines(rt: HostRuntime) {
    expect_all(&rt, &SPREAD);
}

/// Values with integers.
static INTEGERS: [&str; 11] = [
    "[[[1,2],[3,4],[5,6],[7,8],[9,10],[1,2]]]",
    "[[[-1,-2],[-3,-4],[-5,-6],[-7,-8],[-9,-10],[-1,-2]]]",
    // one number of each
    "[[[1,2.5],[3,4.5],[5,6.5],[7,8.5],[9,0.5],[1,2.5]]]",
    // some numbers, after an array with one
    "[[[1,2.5],[3,4],[5.5,6],[7.5,8.5],[9,0],[1,2.5]]]",
    // an array with one among others
    "[[[0.5,2.5],[2.5,4.5],[3,4.5],[5.5,6.5],[7.5,8.5],[9.5,0.5],[0.5,2.5]]]",
    // an array with one right after the first
    "[[[0.5,2.5],[3,4.5],[5.5,6.5],[7.5,8.5],[9.5,0.5],[0.5,2.5]]]",
    // four digits
    "[[[1,2],[3,4],[1805,6],[7,8],[9,10],[1,2]]]",
    "[[[1, 2], [3, 4], [5, 6], [7, 8], [9, 10], [1, 2]]]",
    "[[[ 1, 2 ], [ 3, 4 ], [ 5, 6 ], [ 7, 8 ], [ 9, 10 ], [ 1, 2 ]]]",
    "[[[1,2,0],[3,4,-1.5],[5,6,120],[7,8,0],[9,10,0],[1,2,0]]]",
    // over several lines
    "[\n  [\n    1,\n    2\n  ],\n  [\n    3,\n    4\n  ],\n  [\n    5.5,\n    6\n  ],\n  [\n    7,\n    8\n  ],\n  [\n    1,\n    2\n  ]\n]",
];

#[test]
fn told_by_cut_values_with_integers(rt: HostRuntime) {
    expect_all(&rt, &INTEGERS);
}
