/// What a read of the page's marker came to.
#[derive(Clone, Copy, Debug, PartialEq, Eq)]
pub enum PageSeen {
    /// A try met an even sequence count twice, and the marker between.
    Marker {
        /// The disruption marker.
        marker: u64,
        /// The sequence count, which is even.
        sequence: u32,
    },
    /// Each of the tries met an odd sequence count first, or another one last.
    Busy {
        /// The first sequence count of the last try.
        first: u32,
        /// The last one of that try. Where the first is odd, the try ended with it, and it stands here too.
        last: u32,
    },
}
