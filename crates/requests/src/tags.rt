// The tags of the types of values, as the Green Book gives them.
pub const BOOLEAN: u8 = 3;

pub const DOUBLE_LONG: u8 = 5;

pub const DOUBLE_LONG_UNSIGNED: u8 = 6;

pub const INTEGER: u8 = 15;

pub const ENUM: u8 = 22;
