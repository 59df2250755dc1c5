//! The limits, as code compares with them.

/// The most bytes of a program's text.
pub const LONGEST_PROGRAM: usize = 1_048_576;

/// The most tokens between two semicolons of a program's text, before the first one and behind the last.
pub const LONGEST_RUN: usize = 1_000;

/// The most nodes of a program.
pub const MOST_NODES: usize = 256;

/// The most types of a program.
pub const MOST_TYPES: usize = 64;

/// The most names of an enumeration.
pub const MOST_NAMES: usize = 64;

/// The most flows of a flat program.
pub const MOST_FLOWS: usize = 4_096;

/// The most bytes of a placement's text.
pub const LONGEST_PLACEMENT: usize = 1_048_576;

/// The most bytes of a site's name.
pub const LONGEST_SITE_NAME: usize = 32;

/// The most sites of a placement.
pub const MOST_SITES: usize = 16;

/// The most messages that a link may hold. The least is 1.
pub const MOST_CAPACITY: u16 = 1_024;

/// The messages that a link may hold where a placement doesn't say.
pub const USUAL_CAPACITY: u16 = 16;

/// The most bytes of a table's text.
pub const LONGEST_TABLE: usize = 67_108_864;

/// The most instants of a table.
pub const MOST_INSTANTS: u32 = 1_000_000;

/// The most workers that serve the sites of a run. The fewest is 1.
pub const MOST_WORKERS: u64 = 16;

/// The most bytes of a schedule's text.
pub const LONGEST_SCHEDULE: usize = 67_108_864;
