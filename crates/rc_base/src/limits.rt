// The limits of the language, each once. specs/Limits has the same numbers.

/// The most bytes of a text.
pub const MOST_TEXT_BYTES: u32 = 1_048_576;

/// The most words of a text. A word has a byte at least, so no text that is short enough has more.
pub const MOST_WORDS: u32 = 1_048_576;

/// The greatest depth of a word: the statements, unary expressions and last parts of `?:` round it. The
/// k-th star in a row counts k more.
pub const MOST_DEPTH: u32 = 200;

/// The greatest reach of a word of an expression: its number among the words of the outermost one, from 1.
pub const MOST_REACH: u32 = 1_024;

/// The most cells of a struct.
pub const MOST_STRUCT_CELLS: u32 = 4_096;

/// The most cells of a struct that one assignment copies.
pub const MOST_COPIED_CELLS: u32 = 256;

/// The most cells of all globals together.
pub const MOST_GLOBAL_CELLS: u64 = 1_048_576;

/// The most region variables of a function: its locals and temporaries of pointer and region types, as
/// rc_rlang's specs/Variables counts them.
pub const MOST_VARIABLES: u32 = 128;

/// The most points of a program, as rc_rlang's specs/Points counts them.
pub const MOST_POINTS: u32 = 65_536;

/// The most bytes of an image.
pub const MOST_IMAGE_BYTES: u32 = 268_435_456;

/// The most turns of a run that may be asked for. A turn is a call, or a step back to a loop's head.
pub const MOST_TURNS: u64 = 1_000_000_000_000;

/// The most turns of a run for which no number is asked.
pub const USUAL_TURNS: u64 = 100_000_000;

/// The most regions made by a run that may be asked for, and where no number is asked.
pub const MOST_REGIONS: u32 = 4_294_967_295;

/// The most objects of a region that may be asked for, and where no number is asked.
pub const MOST_BLOCKS: u32 = 4_294_967_295;

/// The bytes of a buffer between a program and the system.
pub const BUFFER_BYTES: usize = 4_096;
