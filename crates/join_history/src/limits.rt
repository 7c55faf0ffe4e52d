//! The limits of a history, each by its name (`specs/Limits`).

/// Numbers of contexts are below this one.
pub const CONTEXT_LIMIT: u32 = 32_768;

/// A journal's history has at most this many entries.
pub const ENTRY_LIMIT: u32 = 262_144;

/// Sequence numbers are below this one: a Partial IV has five bytes (RFC 8613, 7.2.1).
pub const NUMBER_END: u64 = 0x100_0000_0000;

/// Times in seconds are below this one.
pub const TIME_END: u64 = 0x100_0000_0000;

/// The sequence numbers of a block.
pub const BLOCK_SIZE: u64 = 64;

/// Seconds in which a repeated request gets its answer again.
pub const REPEAT_SPAN: u64 = 600;

/// Addresses of a pool are below this one.
pub const POOL_END: u32 = 65_534;

/// A lease has at most this many hours.
pub const HOURS_LIMIT: u16 = 65_535;
