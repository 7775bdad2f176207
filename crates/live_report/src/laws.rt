//! What a run of threads is worth.
ghost use Rattle.live_report.specs.LiveLaws.{LiveReportsAreLawful, HistoriesAreOfLines, HostsDoAllRows, CallsAreOfLines, RunsHaveFewLines};

use lawful_report::report_laws;
use segment_rule::answer_laws;

/// What every run of a trace comes to, whatever order the steps of its parties took.
///
/// `lawful`: the report of its lines is lawful, where the trace has fewer polls than the layout's period. `few`: the lines are at most
/// `MOST_LINES`. `history`: the daemon's history is the image's entry, the record moved from it, and the publications of the lines, in
/// their order, and no others. `rows`: the host's view holds all rows of the clock and of the page. `calls`: the calls in the views of
/// the daemon and the clients are those of their lines, in their order.
pub fn live_laws()
    ensures lawful { LiveReportsAreLawful }
    ensures few { RunsHaveFewLines }
    ensures history { HistoriesAreOfLines }
    ensures rows { HostsDoAllRows }
    ensures calls { CallsAreOfLines }
{
    answer_laws();
    report_laws();
}
