// The kinds of damper command (02, L7), numbers as C has them: 0 is that of a refused call.
pub const NONE: u8 = 0;

pub const BUMP: u8 = 1;

pub const REBOUND: u8 = 2;

pub const PRELOAD: u8 = 3;

pub const BLOCKED: u8 = 4;
