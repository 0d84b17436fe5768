/// The most modules of one command.
pub const MOST_MODULES: usize = 16_384;

/// The most units of a function's items together.
pub const MOST_FUNCTION_UNITS: u32 = 16_384;

/// The most units of all functions together.
pub const MOST_UNITS: u32 = 262_144;
