// One law for each kind of step.
ghost use Rattle.std.specs.Prelude.{ℕ, ◌+◌, ◌<◌, ◌≤◌, Bool, List};
ghost use Rattle.segment_layout.specs.declared.publication.Publication.{Publication};
ghost use Rattle.segment_views.specs.Seats.{Opens, KeepsSplit, KeepsJoin, IsHost, IsDaemon, IsSeated, host_to, daemon_to, state_stays, without_host, without_daemon, whole_view, part_of, daemon_part, taught_by, spent, told_view, TellsTaught};
ghost use Rattle.segment_views.specs.Steps.{MayLoad, MayPage, same_state, clock_view, TellsClock, front_view, TellsFront, plain_view, TellsData, TellsZero, page_view, TellsPage, TellsPlain, KeepsRule, host_state, host_view, TellsHostPart, MayRow, row_done, MayPageOdd, page_begun, MayPageFill, page_filled, MayPageEven, page_done, daemon_state, daemon_view, TellsDaemonPart, MayMagic, with_magic, MayHead, with_head, MayOdd, update_begun, MayFill, update_filled, MayEven, update_ended, MayMoveOdd, move_begun, MayMoveEven, move_ended};

/// The clock and the page.
pub fn host_steps()
    ensures row { KeepsRule 23 MayRow (host_state row_done) (host_view row_done) (TellsHostPart row_done) }
    ensures page_odd { (p : List ℕ) → KeepsRule 11 MayPageOdd (host_state (page_begun p)) (host_view (page_begun p)) (TellsHostPart (page_begun p)) }
    ensures page_fill { (i : ℕ) → 2 ≤ i → i < 13 → KeepsRule (i + 10) (MayPageFill i) (host_state (page_filled i)) (host_view (page_filled i)) (TellsHostPart (page_filled i)) }
    ensures page_even { KeepsRule 11 MayPageEven (host_state page_done) (host_view page_done) (TellsHostPart page_done) }
{}

/// The daemon's stores: the opening, a publication, and the move of an old record.
pub fn daemon_steps()
    ensures magic { KeepsRule 0 MayMagic (daemon_state with_magic) (daemon_view with_magic 0) (TellsDaemonPart with_magic 0) }
    ensures head { KeepsRule 1 MayHead (daemon_state with_head) (daemon_view with_head 1) (TellsDaemonPart with_head 1) }
    ensures odd { (e : Publication) → KeepsRule 1 (MayOdd e) (daemon_state (update_begun e)) (daemon_view (update_begun e) 1) (TellsDaemonPart (update_begun e) 1) }
    ensures fill { (i : ℕ) → 2 ≤ i → i < 10 → KeepsRule i (MayFill i) (daemon_state (update_filled i)) (daemon_view (update_filled i) i) (TellsDaemonPart (update_filled i) i) }
    ensures even { KeepsRule 1 MayEven (daemon_state update_ended) (daemon_view update_ended 1) (TellsDaemonPart update_ended 1) }
    ensures move_odd { KeepsRule 1 MayMoveOdd (daemon_state move_begun) (daemon_view move_begun 1) (TellsDaemonPart move_begun 1) }
    ensures move_even { KeepsRule 1 MayMoveEven (daemon_state move_ended) (daemon_view move_ended 1) (TellsDaemonPart move_ended 1) }
{}

/// The loads of the daemon and of clients.
pub fn loads()
    ensures clock { (first : Bool) → KeepsRule 23 MayLoad same_state (clock_view first) (TellsClock first) }
    ensures zero_word { (first : Bool) → KeepsRule 0 MayLoad same_state (plain_view first 0) (TellsZero first) }
    ensures front { (first : Bool) → KeepsRule 1 MayLoad same_state (front_view first) (TellsFront first) }
    ensures data_word { (first : Bool) (i : ℕ) → 2 ≤ i → i < 10 → KeepsRule i MayLoad same_state (plain_view first i) (TellsData first i) }
    ensures page { (first : Bool) → KeepsRule 11 MayPage same_state (page_view first) (TellsPage first) }
    ensures marker { (first : Bool) → KeepsRule 12 MayLoad same_state (plain_view first 12) (TellsPlain first 12) }
{}

/// The first seat, splits and joins.
pub fn seats()
    ensures opens { Opens }
    ensures host { KeepsSplit IsHost host_to without_host without_daemon }
    ensures daemon { KeepsSplit IsDaemon daemon_to without_daemon without_host }
    ensures client { KeepsSplit IsSeated state_stays whole_view part_of }
    ensures daemons_part { KeepsSplit IsDaemon state_stays whole_view daemon_part }
    ensures joins { KeepsJoin taught_by spent }
    ensures told { KeepsRule 0 MayLoad same_state told_view TellsTaught }
{}
