//! What a refusal says.
use crate::checks::equal;
use gj_json::{Cause, JsonFault};
use std::test::Fail;

/// Where and why an input is refused, and the text of that.
static TEXTS: [(u64, Cause, &str); 4] = [
    (0, Cause::Syntax, "not JSON at 0: syntax"),
    (12, Cause::Truncated, "not JSON at 12: truncated"),
    (256, Cause::Depth, "not JSON at 256: too deep"),
    (
        u64::MAX,
        Cause::Length,
        "not JSON at 18446744073709551615: too long",
    ),
];

#[test]
fn says_where_and_why(rt: HostRuntime) -> Result<(), Fail> {
    for (place, cause, text) in TEXTS.iter() {
        let fault = JsonFault {
            place: *place,
            cause: *cause,
        };
        let said = format!(in rt.alloc(); "{fault}")?;
        equal(&rt, said.as_str(), *text, text);
    }
    Ok(())
}
