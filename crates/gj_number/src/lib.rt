//! The numbers of JSON (RFC 8259, section 6), read as exact decimals.
//!
//! A [`Literal`] takes a number's bytes, however many there are, in a few words of memory. Its [`Literal::value`] is the
//! decimal that the whole literal denotes, or `None` where that decimal is beyond the limits: thirty digits, a power of
//! ten from -400 to 400, a written exponent of a magnitude of at most 1,000.
//!
//! A [`Short`] is an ordinary number, of at most eighteen digits and no exponent, which [`read_short`] reads whole from
//! the start of a piece. What its methods say of it, they say of its decimal. [`read_decimal`] reads longer numbers too,
//! and gives their decimal. [`read_pair`] reads two ordinary numbers at once, and [`cuts_at`] two of
//! which no more is needed than their cut values, where [`digit_span`] found their digits. [`number_run`] only counts the
//! bytes of a number, and [`unsigned_run`] those of a short one without a sign.
#![tactic(auto)]

mod decimal;
mod digits;
mod exponent;
mod lanes;
pub mod laws;
mod literal;
mod prefix;
mod short;
mod state;
mod tens;

pub use decimal::Decimal;
pub use literal::{Literal, Step};
pub use prefix::read_decimal;
pub use short::Short;
pub use short::cuts::{Cut, Span, cuts_at, digit_span};
pub use short::pair::{Pair, read_last_pair, read_pair};
pub use short::prefix::read_short;
pub use short::unsigned::{number_run, unsigned_run};
