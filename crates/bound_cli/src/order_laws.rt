//! What the lines of `order` are worth.
ghost use Rattle.bound_cli.specs.OrderReport.{TextsAreOrdered};

use ordered_runs::ordered_laws;
use read_runs::read_runs_laws;
use run_theorem::sound_runs;

/// What holds of the stamps and leases of every text that is read as a trace. No source and no answer is asked.
pub(crate) fn texts_are_ordered()
    ensures { TextsAreOrdered }
{
    read_runs_laws();
    ordered_laws();
    sound_runs();
}
