//! What rules and kinds of warning say.
use gj_coords::{Kind, Rule};
use std::test::Fail;

#[test]
fn are_shown_as_their_texts(rt: HostRuntime) -> Result<(), Fail> {
    let said = format!(in rt.alloc(); "{}, {}", Kind::W2, Rule::G15)?;
    assert_eq!(rt; said.as_str(), "ring runs the wrong way, ring not closed");
    Ok(())
}
