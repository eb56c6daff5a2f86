//! The forms of a report: for people, for programs, for GitHub, for GitLab and as a log in SARIF, and the summary of files.
//!
//! Each form appends what it says of a file to the bytes of a line. What these bytes are, the definitions of `specs/Forms/`
//! say: `put_report` of each form in [`formats`] adds the report of a file, `put_entry` the line on a feature,
//! [`Summary`](summary::Summary) counts files as `specs/Counts.antt` says, and
//! [`put_items`](items::put_items) adds what is counted of their features and records.
//! [`manual`] has the sections of docs/rules.md.
#![tactic(auto)]

mod code_lines;
pub mod every;
pub mod formats;
pub mod items;
pub mod manual;
pub mod options;
pub mod summary;
pub mod texts;
