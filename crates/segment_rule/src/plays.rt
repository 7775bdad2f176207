// The rule of the table, and what each kind of step tells its caller.
use atomic_table::{Join, Play, Split, TableRule};
use segment_views::{Setup, View};
use std::marker::{Brand, PhantomData};

/// The rule of the shared words.
pub struct WordsRule;

impl TableRule<(), View, Setup> for WordsRule {
    ghost use Rattle.segment_rule.specs.Ruled.{Ruled};
    ghost use Rattle.segment_views.specs.Seats.{opener};

    ghost holds = { λ key s. Ruled key s };

    ghost first = { opener };
}

// The first load of a call.
pub struct Begin;

impl Play<(), View> for Begin {
    ghost use Rattle.std.specs.Prelude.{true};
    ghost use Rattle.segment_rule.specs.Ruled.{told_by, TellsLoad};

    ghost then = { told_by (TellsLoad true) };
}

// A later load.
pub struct Load;

impl Play<(), View> for Load {
    ghost use Rattle.std.specs.Prelude.{false};
    ghost use Rattle.segment_rule.specs.Ruled.{told_by, TellsLoad};

    ghost then = { told_by (TellsLoad false) };
}

// The host's seat is cut off the first one.
pub struct CutHost;

impl Split<View> for CutHost {
    ghost use Rattle.segment_views.specs.Seats.{without_host, without_daemon};

    ghost left = { without_host };

    ghost right = { without_daemon };
}

// The daemon's seat is cut off the first one.
pub struct CutDaemon;

impl Split<View> for CutDaemon {
    ghost use Rattle.segment_views.specs.Seats.{without_host, without_daemon};

    ghost left = { without_daemon };

    ghost right = { without_host };
}

// A further client's seat is cut off the first one.
pub struct CutClient;

impl Split<View> for CutClient {
    ghost use Rattle.segment_views.specs.Seats.{whole_view, part_of};

    ghost left = { whole_view };

    ghost right = { part_of };
}

// A part of the daemon's seat, which has seen all that was published.
pub struct CutDaemonPart;

impl Split<View> for CutDaemonPart {
    ghost use Rattle.segment_views.specs.Seats.{whole_view, daemon_part};

    ghost left = { whole_view };

    ghost right = { daemon_part };
}

// A part is joined into a seat.
pub struct Learn;

impl Join<View> for Learn {
    ghost use Rattle.segment_views.specs.Seats.{taught_by, spent};

    ghost both = { taught_by };

    ghost spent = { spent };
}

// A load that tells what was learned.
pub struct Learned;

impl Play<(), View> for Learned {
    ghost use Rattle.segment_rule.specs.Ruled.{told_by};
    ghost use Rattle.segment_rule.specs.Settled.{TellsLearned};

    ghost then = { told_by TellsLearned };
}

// A store of an opening.
pub struct OpenStore;

impl Play<(), View> for OpenStore {
    ghost use Rattle.segment_rule.specs.Ruled.{told_by};
    ghost use Rattle.segment_rule.specs.Opens.{TellsOpen};

    ghost then = { told_by TellsOpen };
}

/// What is being published, which no word holds whole.
pub trait Announced {
    ghost use Rattle.segment_layout.specs.declared.publication.Publication.{Publication};

    ghost entry: { Publication };
}

impl Announced for Brand {
    ghost use Rattle.segment_run.specs.SegmentRun.{no_publication};

    ghost entry = { no_publication };
}

// A store of a publication.
pub struct PollStore<A> {
    announced: PhantomData<A>,
}

impl<A: Announced> Play<(), View> for PollStore<A> {
    ghost use Rattle.segment_rule.specs.Ruled.{told_by};
    ghost use Rattle.segment_rule.specs.Polls.{TellsPoll};

    ghost then = { told_by (TellsPoll A.entry) };
}

/// The words of the page row in hand.
pub trait AnnouncedPage {
    ghost use Rattle.std.specs.Prelude.{ℕ, List};

    ghost words: { List ℕ };
}

impl AnnouncedPage for Brand {
    ghost use Rattle.std.specs.Prelude.{[]};

    ghost words = { [] };
}

// A store of the host.
pub struct HostStore<A> {
    announced: PhantomData<A>,
}

impl<A: AnnouncedPage> Play<(), View> for HostStore<A> {
    ghost use Rattle.segment_rule.specs.Ruled.{told_by};
    ghost use Rattle.segment_rule.specs.Hosts.{TellsHost};

    ghost then = { told_by (TellsHost A.words) };
}
