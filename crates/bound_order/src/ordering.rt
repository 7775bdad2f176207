ghost use Rattle.std.specs.Prelude.{◌≡◌, ◌≤◌, ℕ, List, [], ◌∷◌, All, None, replicate, IfOk};
ghost use Rattle.bound_order.specs.Ordering.{IsTold, order_of, step_of};
ghost use Rattle.bound_order.specs.Promises.{ActsEndFirst, AreTrue, GrantsComeLater, KeepsOrder, StampsFollowTime};
ghost use Rattle.bound_order.specs.Standing.{IsReady, StandsAfter};
ghost use Rattle.bound_order.specs.declared.lease.TheConstants.{LONGEST_LEASE};
ghost use Rattle.bound_order.specs.declared.told.Told.{Told as Given};

use crate::lease::{Holder, Lease, lease_turn, next_holder};
use crate::step::Step;
use crate::told::{Told, trusted};
use crate::waiting::{Waiting, next_waiting, wait};
use clock_gate::{List, MOST_CLIENTS, Memory};
use std::alloc::{AllocError, Global};

/// How commit wait and the one lease stand after some answers.
#[derive(Drop)]
pub struct Ordering {
    // The stamp of each client that waits, at the client's number.
    waiting: Vec<Option<i128>>,
    held: Option<Holder>,
    length: u64,
}

// A place for the stamp of each client at its number; nobody has number 0.
fn no_stamps(alloc: Global) -> Result<Vec<Option<i128>>, AllocError>
    ensures { IfOk result (λ stamps. stamps.items ≡ replicate 65 None) }
{
    vec![in alloc; None; MOST_CLIENTS as usize + 1]
}

impl Ordering {
    /// Before the first answer. `length` is that of a lease, in nanoseconds.
    pub fn new(alloc: Global, length: u64) -> Result<Ordering, AllocError>
        requires { length ≤ LONGEST_LEASE }
        ensures ready { IfOk result IsReady }
        ensures none { IfOk result (StandsAfter length []) }
    {
        let waiting = no_stamps(alloc)?;
        Ok(Ordering {
            waiting,
            held: None,
            length,
        })
    }

    /// The step of the next answer.
    pub fn next(&mut self, answer: &Told) -> Step
        requires ready { IsReady self.old }
        requires told { IsTold answer.now }
        ensures ready { IsReady self.new }
        ensures step { (length : ℕ) (past : List Given) → StandsAfter length past self.old → result ≡ step_of length past answer.now }
        ensures stands { (length : ℕ) (past : List Given) → StandsAfter length past self.old → StandsAfter length (answer.now ∷ past) self.new }
    {
        let place = answer.client as usize;
        let Some(interval) = trusted(answer) else {
            return Step {
                wait: Waiting::Pass,
                lease: Lease::Untrusted,
            };
        };
        let stamp = self.waiting[place];
        let step = Step {
            wait: wait(stamp, &interval),
            lease: lease_turn(&self.held, answer.client, &interval, self.length),
        };
        self.waiting[place] = next_waiting(stamp, &interval);
        self.held = next_holder(&self.held, answer.client, &interval, self.length);
        step
    }
}

fn steps_of(alloc: Global, told: &[Told], length: u64) -> Result<Vec<Step>, AllocError>
    requires told { All IsTold told.now }
    requires length { length ≤ LONGEST_LEASE }
    ensures { IfOk result (λ steps. steps.items ≡ order_of length told.now) }
{
    let mut ordering = Ordering::new(alloc, length)?;
    let mut steps = Vec::with_capacity(alloc, told.len())?;
    for answer in told {
        let next = ordering.next(answer);
        steps.push(next)?;
    }
    Ok(steps)
}

/// Commit wait and the one lease: a step for each answer, in the order of the answers. `length` is that of a lease, in
/// nanoseconds. Takes time linear in the number of answers.
pub fn order(alloc: Global, told: &[Told], length: u64) -> Result<List<Step>, Memory>
    requires told { All IsTold told.now }
    requires length { length ≤ LONGEST_LEASE }
    ensures exact { IfOk result (λ steps. steps ≡ order_of length told.now) }

    // Of answers whose true time is told and lies in their interval. Where one ends the wait of a stamp, and another, of no
    // earlier true time, draws a stamp, this stamp is greater.
    ensures stamps { IfOk result (StampsFollowTime told.now) }
    // An act under a grant comes before its expiry, by true time, and each later grant after it.
    ensures acts { IfOk result (ActsEndFirst told.now) }
    ensures grants { IfOk result (GrantsComeLater told.now) }
    // Where the true time of each trusted answer is told and lies in its interval, all this is so of each step but a pass.
    ensures kept { IfOk result (λ steps. AreTrue told.now → KeepsOrder told.now steps) }
{
    Ok(List::from_vec(steps_of(alloc, told, length)?))
}
