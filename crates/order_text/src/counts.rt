//! How many stamps were drawn, how many waits ended, and how often the lease was granted and acted under.
ghost use Rattle.std.specs.Prelude.{◌≡◌, ◌++◌, ◌-◌, ◌+◌, ◌^◌, ℕ, List, [], vec_items, OnOk};
ghost use Rattle.bound_order.specs.declared.step.Step.{Step as Given};
ghost use Rattle.order_text.specs.Counted.{AreUpTo, all_counted, counted};
ghost use Rattle.order_text.specs.Lines.{total_line};

use backward_line::BackwardLine;
use bound_order::{Lease, Step, Waiting};
use std::alloc::AllocError;

/// How many steps drew a stamp, ended a wait, were granted the lease and acted under it.
#[derive(Clone, Copy, Debug, PartialEq, Eq)]
pub(crate) struct Counts {
    pub stamps: u64,
    pub done: u64,
    pub grants: u64,
    pub acts: u64,
}

impl Counts {
    /// Of one step more.
    pub fn count(&mut self, step: &Step)
        requires { AreUpTo (2 ^ 64 - 2) self.old }
        ensures counted { self.new ≡ counted step.now self.old }
        ensures next { (most : ℕ) → AreUpTo most self.old → AreUpTo (most + 1) self.new }
    {
        match step.wait {
            Waiting::Stamp(_) => self.stamps += 1,
            Waiting::Done(_) => self.done += 1,
            Waiting::Pass | Waiting::Hold => {}
        }
        match step.lease {
            Lease::Grant(_) => self.grants += 1,
            Lease::Act => self.acts += 1,
            Lease::Untrusted | Lease::Deny => {}
        }
    }
}

// No step yet.
pub(crate) const NONE: Counts = Counts {
    stamps: 0,
    done: 0,
    grants: 0,
    acts: 0,
};

#[tactic(auto, unfolding(crate::specs::Lines::total_line))]
fn put_total_text(line: &mut BackwardLine, counts: &Counts)
    requires { line.old ≡ [] }
    ensures { (steps : List Given) → counts.now ≡ all_counted NONE steps → line.new ≡ total_line steps }
{
    line.put_byte(b'\n');
    line.put_number(counts.acts);
    line.put_byte(b',');
    line.put_number(counts.grants);
    line.put_byte(b',');
    line.put_number(counts.done);
    line.put_byte(b',');
    line.put_number(counts.stamps);
    line.put_word(b"total,".as_slice());
}

/// Appends the counts of some steps.
pub fn put_total(text: &mut Vec<u8>, counts: &Counts) -> Result<(), AllocError>
    ensures { (steps : List Given) → counts.now ≡ all_counted NONE steps → OnOk result (vec_items text.new ≡ vec_items text.old ++ total_line steps) }
{
    let mut line = BackwardLine::new();
    put_total_text(&mut line, counts);
    text.extend_from_slice(line.as_slice())
}
