//! The linter for hosts that speak C: a static library with the header `include/geolint.h`.
//!
//! [`geolint_check`](check::geolint_check) checks a text in memory; the functions of `handle` check a text that comes in
//! pieces, by a handle in memory that the host provides. What each call answers is stated by the clauses of
//! [`Linter`](gj_rules::Linter), so that the verdict is the definition's on this side of the boundary too.
#![tactic(auto)]

/// Calls a method of the handle that lies at a pointer. At null it answers the given, and does nothing.
macro_rules! at_handle {
    ($memory:ident as $handle:ty, $null:expr, $method:ident($($given:expr),*)) => {{
        let handle = $memory as *mut $handle;
        if handle.is_null() {
            return $null;
        } else {
            return (*handle).$method($($given),*);
        }
    }};
}

/// Writes a handle that is begun so, and answers the status. At null it answers that, and does nothing.
macro_rules! begin_at {
    ($memory:ident as $handle:ident, $status:ident($($given:ident),*)) => {{
        let handle = $memory as *mut $handle;
        if handle.is_null() {
            return NULL;
        } else {
            std::ptr::write(handle, $handle::begun($($given),*));
            return $status($($given),*);
        }
    }};
}

mod check;
mod commas;
mod features;
mod finding;
mod handle;
mod hint;
mod join;
mod last;
mod latest;
mod lines;
mod locator;
mod options;
mod records;
mod report;
mod run;
mod status;
mod sum;
mod texts;
