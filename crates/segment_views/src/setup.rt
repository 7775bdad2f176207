use generation_word::Layout;

/// What a table is told once.
#[derive(Clone, Copy, Debug)]
pub struct Setup {
    /// The layout of the segment.
    pub layout: Layout,
    /// The ten words of the segment at first, which `admit` accepts with the layout.
    pub image: [u64; 10],
    /// The thirteen words of the start page, with an even sequence count, or `None` without a page.
    pub page: Option<[u64; 13]>,
    /// How many rows the clock has, from 1.
    pub rows: u32,
    /// How many clients there are.
    pub clients: u32,
}
