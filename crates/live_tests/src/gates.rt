// Gates that hold workers, or write down their passes.
use clock_gate::Gate;
use std::alloc::{AllocError, Global};
use std::hint;
use std::sync::atomic::{AtomicU64, Ordering};

// How often a worker looks before it is late.
const LIMIT: u32 = 100_000_000;

/// Holds `who` at `point` until `other` has passed `there`.
#[derive(Clone, Copy)]
pub struct Hold {
    pub who: u32,
    pub point: u32,
    pub other: u32,
    pub there: u32,
}

/// So many words that are 0.
pub fn zeros(alloc: Global, count: usize) -> Result<Vec<AtomicU64>, AllocError> {
    let mut words = Vec::new(alloc);
    for _ in 0..count {
        words.push(AtomicU64::new(0))?;
    }
    Ok(words)
}

/// Holds each worker as the list says, and counts those that were late.
#[derive(Drop)]
pub struct Holding {
    pub holds: Vec<Hold>,
    pub passed: Vec<AtomicU64>,
    pub late: AtomicU64,
}

impl Holding {
    fn wait(&self, hold: Hold) {
        for _ in 0..LIMIT {
            if let Some(other) = self.passed.get(hold.other as usize) {
                if other.load(Ordering::SeqCst) >= u64::from(hold.there) {
                    return;
                }
            }
            hint::spin_loop();
        }
        self.late.fetch_add(1, Ordering::SeqCst);
    }
}

impl Gate for Holding {
    fn pass(&self, who: u32, point: u32) {
        for hold in &self.holds {
            if hold.who == who && hold.point == point {
                self.wait(*hold);
            }
        }
        if let Some(mine) = self.passed.get(who as usize) {
            mine.store(u64::from(point), Ordering::SeqCst);
        }
    }
}

/// All clients meet before their first call.
#[derive(Drop)]
pub struct Meeting {
    pub all: u64,
    pub there: AtomicU64,
    pub late: AtomicU64,
}

impl Gate for Meeting {
    fn pass(&self, who: u32, point: u32) {
        if who < 2 || who > 65 || point != 2 {
            return;
        }
        self.there.fetch_add(1, Ordering::SeqCst);
        for _ in 0..LIMIT {
            if self.there.load(Ordering::SeqCst) >= self.all {
                return;
            }
            hint::spin_loop();
        }
        self.late.fetch_add(1, Ordering::SeqCst);
    }
}

/// Writes down when clients 1 and 2 passed each of their points.
#[derive(Drop)]
pub struct Diary {
    pub count: AtomicU64,
    pub at: Vec<AtomicU64>,
}

// The place of a point, where no point is above 7.
fn place(who: u32, point: u32) -> usize {
    who.saturating_mul(8).saturating_add(point) as usize
}

impl Diary {
    /// When this point was passed, counted from 1; 0 where it wasn't.
    pub fn passed(&self, who: u32, point: u32) -> u64 {
        match self.at.get(place(who, point)) {
            Some(cell) => cell.load(Ordering::SeqCst),
            None => 0,
        }
    }
}

impl Gate for Diary {
    fn pass(&self, who: u32, point: u32) {
        let now = self.count.fetch_add(1, Ordering::SeqCst);
        if who == 2 || who == 3 {
            if let Some(cell) = self.at.get(place(who, point)) {
                cell.store(now.saturating_add(1), Ordering::SeqCst);
            }
        }
    }
}
