//! The segment of a run: positions that never wrap and whole records, and what ten shared words show of them.
//!
//! `specs/SegmentRun.antt` has the segment and its steps, `specs/ShowsSegment.antt` what words 0 to 9 show of it. A run that goes
//! step by step cites both, and so do threads that share the words. Definitions and laws alone: there is nothing here to call.
#![tactic(auto)]

mod law;

pub use law::segment_laws;
