//! How a worker waits for another one.
use std::{hint, thread};

// Looks before the processor is given away once, which is a call of the system.
const LOOKS: u32 = 64;

/// The looks of a worker that waits.
#[derive(Drop)]
pub(crate) struct Pause {
    looks: u32,
}

impl Pause {
    pub fn new() -> Pause {
        Pause { looks: 0 }
    }

    /// Comes after each look in vain.
    pub fn rest(&mut self) {
        if self.looks < LOOKS {
            self.looks += 1;
            hint::spin_loop();
            return;
        }
        self.looks = 0;
        thread::yield_now();
    }
}
