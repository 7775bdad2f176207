//! The stores of a poll, cut at the stop.
ghost use Rattle.std.specs.Prelude.{◌≡◌, ◌↔◌, IsTrue, Some, None, ◌==◌, if◌then◌else◌, IfSome, IsNone};
ghost use Rattle.clock_gate.specs.declared.act.Act.TheVariants.{End};
ghost use Rattle.clock_gate.specs.declared.limits.TheConstants.{MOST_STORES};
ghost use Rattle.shm_writer.specs.Publisher.{publishing_act, publishing_given};
ghost use Rattle.shm_writer.specs.Leaps.{MakesStores};
ghost use Rattle.writer_reopen.specs.declared.polled.Polled.TheVariants.{Published, Stopped};
ghost use Rattle.writer_reopen.specs.Progress.{act_of, end_of};
ghost use Rattle.writer_reopen.specs.Poll.{storing_of};
ghost use Rattle.writer_reopen.specs.PollMachine.{IsUpdate, DaemonFits, IsPollAct, PolledFits};

use crate::order::Order;
use crate::polled::Polled;
use crate::stage::Taken;
use clock_gate::{Act, MOST_STORES};
use shm_writer::Publisher;

// The next store, or the end where the daemon stops.
#[tactic(auto, using(crate::proofs::Cut::act_at_stop, crate::proofs::Cut::act_before_stop))]
pub(crate) fn storing_act(order: &Order, taken: &Taken, publisher: &Publisher) -> Act
    requires { IsUpdate order.now taken.now publisher.now }
    ensures act { result ≡ act_of (storing_of order.now taken.now publisher.now.made) }
    ensures words { IsPollAct result }
{
    if is_stop(order.stop, publisher.done()) {
        return Act::End;
    }
    publisher.next()
}

// Whether there is no next store: at the stop, and after the tenth.
#[tactic(auto, using(crate::proofs::Cut::act_at_stop, crate::proofs::Cut::act_after_ten, crate::proofs::Cut::act_before_ten))]
pub(crate) fn storing_has_ended(order: &Order, taken: &Taken, publisher: &Publisher) -> bool
    requires { IsUpdate order.now taken.now publisher.now }
    ensures { IsTrue result ↔ (act_of (storing_of order.now taken.now publisher.now.made) ≡ End) }
{
    if is_stop(order.stop, publisher.done()) {
        return true;
    }
    publisher.done() == MOST_STORES
}

// All stores but the last at once, where none is made yet and no stop is set: the values that words 1 to 9 were given.
pub(crate) fn store_nine(
    order: &Order,
    taken: &Taken,
    publisher: &mut Publisher,
) -> Option<[u64; 9]>
    requires { IsUpdate order.now taken.now publisher.old }
    ensures stores { IfSome result (λ values. (order.now.stop ≡ None) × MakesStores publishing_act publishing_given 1 values publisher.old publisher.new) }
    ensures none { IsNone result → publisher.new ≡ publisher.old }
    ensures update { IsUpdate order.now taken.now publisher.new }
{
    if order.stop.is_some() {
        return None;
    }
    if publisher.done() != 0 {
        return None;
    }
    Some(publisher.give_nine())
}

// What was published, or where the daemon stopped.
#[tactic(auto, using(crate::proofs::Cut::end_stopped, crate::proofs::Cut::end_past_ten, crate::proofs::Cut::end_published))]
pub(crate) fn storing_end(order: &Order, taken: &Taken, publisher: &Publisher) -> Option<Polled>
    requires update { IsUpdate order.now taken.now publisher.now }
    requires daemon { DaemonFits taken.now.daemon }
    ensures end { result ≡ end_of (storing_of order.now taken.now publisher.now.made) }
    ensures fits { IfSome result PolledFits }
{
    match order.stop {
        Some(stop) if stop < MOST_STORES => stopped(stop, publisher.done()),
        Some(_) | None => published(taken, publisher.done()),
    }
}

fn is_stop(stop: Option<u8>, made: u8) -> bool
    ensures { IsTrue result ↔ (stop ≡ Some made) }
{
    match stop {
        Some(stop) => stop == made,
        None => false,
    }
}

fn stopped(stop: u8, made: u8) -> Option<Polled>
    ensures { result ≡ (if made == stop then Some (Stopped stop) else None) }
{
    if made == stop {
        Some(Polled::Stopped { stores: stop })
    } else {
        None
    }
}

fn published(taken: &Taken, made: u8) -> Option<Polled>
    ensures { result ≡ (if made == MOST_STORES then Some (Published taken.now.daemon taken.now.publication) else None) }
{
    if made == MOST_STORES {
        Some(Polled::Published {
            daemon: taken.daemon,
            publication: taken.publication,
        })
    } else {
        None
    }
}
