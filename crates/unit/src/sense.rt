// The sense bytes of this machine's devices. They are constants and no enum: a device may keep any byte.

// No command has failed since the last sense command came to its end.
pub const CLEAR: u8 = 0x00;

// The code is no command of the device, or the blocks that a command is for are not named or do not exist.
pub const COMMAND_REJECT: u8 = 0x80;

// Nothing is left of what the command needs: paper, a line, a byte or a block.
pub const INTERVENTION_REQUIRED: u8 = 0x40;
