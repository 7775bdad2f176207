/// The number that begins a page: the bytes `VCLK`.
pub const MAGIC: u32 = 0x4b4c_4356;

/// The version of the layout.
pub const VERSION: u16 = 1;

/// The bytes of a page, and the least size that one may state.
pub const PAGE_BYTES: u32 = 104;

/// The shared word that holds the page's sequence count: word 1 of the page, which stands in words 10 to 22.
pub const COUNT_WORD: u8 = 11;

/// The shared word that holds the page's disruption marker.
pub const MARKER_WORD: u8 = 12;

/// The shared word that holds the number of clock rows done.
pub const CLOCK_WORD: u8 = 23;
