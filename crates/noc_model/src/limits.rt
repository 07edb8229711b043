//! The greatest sizes of a network.

/// Sides of a network.
pub const MOST_SIDES: usize = 3;

/// Tiles along a side.
pub const MOST_SIDE: u32 = 16;

/// Tiles in all.
pub const MOST_TILES: u32 = 256;

/// Registers of a link.
pub const MOST_STAGES: u32 = 4;

/// Flits in a channel's buffer.
pub const MOST_BUFFER: u32 = 16;

/// Bytes of a name.
pub const MOST_NAME: usize = 16;

/// Domains.
pub const MOST_DOMAINS: usize = 16;

/// Virtual channels of each class, of a domain.
pub const MOST_CHANNELS: u32 = 4;

/// Attachments.
pub const MOST_HOSTS: usize = 256;

/// Address ranges.
pub const MOST_RANGES: usize = 1024;

/// Buffer slots in all.
pub const MOST_PLACES: u32 = 24_576;

/// Slots of the wave schedule.
pub const MOST_SLOTS: usize = 64;

/// Cycles of a run.
pub const MOST_CYCLES: u32 = 65_536;
