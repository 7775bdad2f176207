//! What the seats of the shared words know, the rule of the words, and one law for each kind of step.
//!
//! Host, daemon and clients share 24 words and step on them one word at a time, in whatever order their threads take. Each has a
//! seat with a view (`specs/Views.antt`). The rule (`specs/Rule.antt`) says that the words show one state, a segment's run among
//! it, and that each view fits it. A kind of step (`specs/Steps.antt`) is when a seat may take it, what it makes of the state and of
//! the seat's view, and what its caller learns; its law says that it keeps the rule. `specs/Seats.antt` has the first seat, splits
//! and joins, `specs/Shown.antt` what the steps of a call show together. Definitions and laws alone: there is nothing here to call.
#![tactic(auto)]

mod laws;
mod setup;
mod view;

pub use laws::{daemon_steps, host_steps, loads, seats};
pub use setup::Setup;
pub use view::View;
