/// A read or a write failed. The reason is not kept.
#[derive(Clone, Copy, Debug, PartialEq, Eq)]
pub struct Failed;
