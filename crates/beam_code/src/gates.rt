// The gates of the machine by number (`docs/MACHINE.md`).

/// The run is returned.
pub const GATE_STOP: u32 = 0;

/// The run ends: no reduction is left.
pub const GATE_OUT_OF_REDUCTIONS: u32 = 1;

/// The run ends: the stack has no room.
pub const GATE_STACK_FULL: u32 = 2;

/// The run ends: the heap has no room.
pub const GATE_HEAP_FULL: u32 = 3;

/// The run ends: an integer is too wide.
pub const GATE_BIGNUM: u32 = 4;

/// The run ends: an operand is of another kind.
pub const GATE_BAD_OPERAND: u32 = 5;

/// The run ends: a function of no given module is called.
pub const GATE_NOT_PROVIDED: u32 = 6;

/// Raises the error `undef`.
pub const GATE_UNDEF: u32 = 7;

/// Raises the error `function_clause`.
pub const GATE_FUNCTION_CLAUSE: u32 = 8;

/// Raises the error `{badmatch,V}`.
pub const GATE_BADMATCH: u32 = 9;

/// Raises the error `{case_clause,V}`.
pub const GATE_CASE_CLAUSE: u32 = 10;

/// Raises the error `{try_clause,V}`.
pub const GATE_TRY_CLAUSE: u32 = 11;

/// Raises the error `if_clause`.
pub const GATE_IF_CLAUSE: u32 = 12;

/// Raises with a class that is given.
pub const GATE_RAISE: u32 = 13;

/// Raises with the class of x0, or answers `badarg`.
pub const GATE_RAW_RAISE: u32 = 14;

/// Raises the error `badarith`.
pub const GATE_BADARITH: u32 = 15;

/// Raises the error `badarg`.
pub const GATE_BADARG: u32 = 16;

/// The gate of built-in 0; that of built-in k is k more.
pub const GATE_BUILT_INS: u32 = 64;

/// How many built-ins there are, numbered from 0.
pub const BUILT_INS: u32 = 57;

/// The first of the built-ins that only raise: they are no guards.
pub const FIRST_RAISER: u32 = 45;

/// The last of them.
pub const LAST_RAISER: u32 = 48;

/// The gate of built-in 0 as a guard; that of built-in k is k more.
pub const GATE_GUARDS: u32 = 128;
