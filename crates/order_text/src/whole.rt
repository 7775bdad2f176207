ghost use Rattle.std.specs.Prelude.{◌≡◌, ◌≤◌, ◌++◌, vec_items, All, OnOk};
ghost use Rattle.bound_order.specs.Ordering.{IsTold, order_of};
ghost use Rattle.bound_order.specs.declared.lease.TheConstants.{LONGEST_LEASE};
ghost use Rattle.order_text.specs.Lines.{order_text};
ghost use Rattle.order_text.specs.Told.{answers_told};

use crate::counts::{NONE, put_total};
use crate::lines::{put_header, put_step};
use crate::told::event_told;
use abstract_run::Event;
use bound_order::Ordering;
use clock_gate::ClockRow;
use std::alloc::{AllocError, Global};

/// Appends the header, a line or two for each answer among these events, in the order of the events, and the counts. `clock` has the rows
/// of the clock, and `length` is that of a lease, in nanoseconds.
pub fn put_order(
    alloc: Global,
    text: &mut Vec<u8>,
    clock: &[ClockRow],
    events: &[Event],
    length: u64,
) -> Result<(), AllocError>
    requires told { All IsTold (answers_told clock.now events.now) }
    requires length { length ≤ LONGEST_LEASE }
    ensures { OnOk result (vec_items text.new ≡ vec_items text.old ++ order_text (answers_told clock.now events.now) (order_of length (answers_told clock.now events.now))) }
{
    let mut ordering = Ordering::new(alloc, length)?;
    let mut counts = NONE;
    put_header(text)?;
    'events: for event in events {
        if let Some(answer) = event_told(clock, event) {
            let step = ordering.next(&answer);
            put_step(text, &answer, &step)?;
            counts.count(&step);
        }
    }
    put_total(text, &counts)
}
