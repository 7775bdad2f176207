//! Reads, in so many tries, of words that a writer changes under a number which is odd meanwhile: a seqlock.
//!
//! `specs/Tries.antt` says what a read comes to by the values that it was given, `specs/TriedRun.antt` the same by its tries, one after
//! another: each failed, or found the number calm, loaded the words and found the same number at last. `seqlock_laws` are the laws of
//! every such read. The machines of the segment's readers and of the page's cite them. Stands on `clock_gate`, for an `Act`.
#![tactic(auto)]

mod laws;

pub use laws::seqlock_laws;
