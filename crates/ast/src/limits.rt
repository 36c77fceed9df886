//! The limits of the language, and of loops whose iterations overlap, that more than one crate
//! speaks of.

/// How many letters and digits a name has at most.
pub const LONGEST_NAME: usize = 6;

/// How many statements a program has at most, END counted.
pub const MOST_STATEMENTS: usize = 4096;

/// How many DO ranges and IF blocks are open at once at most.
pub const MOST_NESTED: usize = 16;

/// How many names a program has at most.
pub const MOST_NAMES: usize = 512;

/// How many events a loop has at most.
pub const MOST_EVENTS: usize = 64;
