//! Laws of what is ordered.
ghost use Rattle.ordered_runs.specs.OrderedRuns.{RunsKeepOrder, WholeRunsAreTold};

use bound_order::order_laws;
use dated_runs::dated_laws;
use run_promises::kept_answers;
use run_theorem::sound_runs;

/// What stamps and leases are worth in every run, and that the answers of a whole run may be ordered.
pub fn ordered_laws()
    // After any turns of the parties of a trace: where premises held, order is kept.
    ensures turns { RunsKeepOrder }
    // The clients of a whole run have numbers from 1 to 64, and its intervals are near.
    ensures told { WholeRunsAreTold }
{
    order_laws();
    dated_laws();
    kept_answers();
    sound_runs();
}
