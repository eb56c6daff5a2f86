//! The room that the system gives the stack.

use std::fs;

/// The least room that a program needs on its stack, in bytes.
const LEAST: u64 = 4 << 20;

/// Whether the system gives the stack less than 4 MiB. A program with less could be ended by a signal, without a word. No clause
/// knows what the system says: where it says nothing, the answer is no.
pub fn lacks_stack(rt: &HostRuntime) -> bool {
    match fs::read_to_string(rt, "/proc/self/limits") {
        Ok(limits) => stack_in(limits.as_str()).is_some_and(|room| room < LEAST),
        Err(_) => false,
    }
}

/// The room of the stack in the system's list of limits, in bytes: none where it has no limit.
fn stack_in(limits: &str) -> Option<u64> {
    let line = limits
        .lines()
        .find(|line| line.starts_with("Max stack size"))?;
    line.split_ascii_whitespace().nth(3)?.parse().ok()
}
