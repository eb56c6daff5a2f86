//! What a call answers.

/// The call did what it is for; of a piece: the bytes so far begin a JSON text within the depth, and are no more than allowed.
pub const DONE: u32 = 0;

/// Of a piece: the input is refused, and so is every input that begins so.
pub const REFUSED: u32 = 1;

/// The handle has ended, and stays so until it is begun again.
pub const ENDED: u32 = 2;

/// The limits are not allowed: nothing can be checked under them.
pub const LIMITS: u32 = 3;

/// The pointer is null: nothing was changed.
pub const NULL: u32 = 4;

/// A finding is ready, and is to be taken first: nothing was changed.
pub const READY: u32 = 5;

/// No finding is ready.
pub const NONE: u32 = 6;
