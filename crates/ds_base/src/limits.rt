//! The limits that the form of a volume sets to its objects.

/// The numbers that the body of a descriptor lists: sub-blocks of a directory; blocks of a file, or its pointer blocks.
pub const ADDRESSES: u32 = 96;

/// The blocks of a page of a file: the numbers that a pointer block lists.
pub const PAGE: u32 = 128;

/// The most blocks of a file: 96 pages of 128.
pub const MOST_BLOCKS: u32 = 12_288;

/// The most entries of a directory: 96 sub-blocks of 4.
pub const MOST_ENTRIES: u32 = 384;

/// The last birth that an object may have; 0 is that of one never born.
pub const MOST_BIRTH: u64 = 1 << 62;

/// The most sectors of a file block.
pub const MOST_BLOCK_SECTORS: u16 = 2048;

/// The most items of a cluster, other than one of descriptors.
pub const MOST_ITEMS: u16 = 3840;

/// The lock object that the first cluster of descriptors is; those of each kind have 8 numbers. Below it each number is
/// the object of a descriptor.
pub const FIRST_CLUSTER_LOCK: u32 = 2048;
