// The statuses that a device answers. They are constants and no enum: a status is a byte of the status word,
// and a device may answer any.

// No command was open that could end.
pub const NO_STATUS: u8 = 0x00;

// A command is open.
pub const BUSY: u8 = 0x10;

// The command came to its end.
pub const ENDED: u8 = 0x0C;

// The command came to its end with an error, which the sense byte tells.
pub const FAILED: u8 = 0x0E;

// The command was not begun, for a reason that the sense byte tells.
pub const REFUSED: u8 = 0x02;
