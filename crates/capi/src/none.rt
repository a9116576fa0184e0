// The numbers that C gets where a call is not refused, and where it has no stop reason.
pub const ACCEPTED: u8 = 0;

pub const REASON: u8 = 0;
