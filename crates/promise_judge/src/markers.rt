//! The markers of pages.
ghost use Rattle.std.specs.Prelude.{◌≡◌, ◌<◌, ◌≤◌, length, take, slice_index_or};
ghost use Rattle.clock_gate.specs.declared.trace.HostRow.TheVariants.{Clock};
ghost use Rattle.promise_judge.specs.Markers.{brings_back as is_brought_back, changes as is_changed, changes_at as is_changed_at, has_stood as has_marker_stood, is_that as is_that_marker, marker_after as last_marker, marker_in as is_marker_in, marker_of_row, repeats_at as is_repeated_at, start_marker as is_start_marker};

use clock_gate::{HostRow, Trace};

// The marker among the words of a page.
pub(crate) fn marker_in(words: [u64; 13]) -> u64
    ensures { result ≡ is_marker_in words }
{
    words[2]
}

// The marker of the start page, where there is one.
pub(crate) fn start_marker(trace: &Trace) -> Option<u64>
    ensures { result ≡ is_start_marker trace.now.page }
{
    match trace.page {
        None => None,
        Some(words) => Some(marker_in(words)),
    }
}

fn is_that(marker: u64, other: Option<u64>) -> bool
    ensures { result ≡ is_that_marker marker other }
{
    match other {
        None => false,
        Some(other) => marker == other,
    }
}

// The marker of a page row; `None` at another row.
fn marker_of(row: HostRow) -> Option<u64>
    ensures { result ≡ marker_of_row row }
{
    match row {
        HostRow::Page(words) => Some(marker_in(words)),
        HostRow::Clock(_) => None,
        HostRow::Disrupt => None,
    }
}

// The marker of the last page among so many host rows; by walking back.
#[tactic(auto, using(crate::proofs::Walking::marker_here, crate::proofs::Walking::marker_back))]
fn marker_after(start: Option<u64>, host: &[HostRow], done: usize) -> Option<u64>
    requires { done ≤ length host.now }
    ensures { result ≡ last_marker start (take done host.now) }
{
    let mut left = done;
    'back: while 0 < left {
        left -= 1;
        if let Some(marker) = marker_of(host[left]) {
            return Some(marker);
        }
    }
    start
}

// Whether this is the marker of the start page, or of a page among so many host rows; by walking back.
#[tactic(auto, using(crate::proofs::Walking::stood_here, crate::proofs::Walking::stood_back))]
fn has_stood(start: Option<u64>, host: &[HostRow], done: usize, marker: u64) -> bool
    requires { done ≤ length host.now }
    ensures { result ≡ has_marker_stood start (take done host.now) marker }
{
    let mut left = done;
    'back: while 0 < left {
        left -= 1;
        if is_that(marker, marker_of(host[left])) {
            return true;
        }
    }
    is_that(marker, start)
}

// Whether the row after so many is a page row with another marker than the page just before it.
fn changes(start: Option<u64>, host: &[HostRow], done: usize) -> bool
    requires { done < length host.now }
    ensures { result ≡ is_changed (last_marker start (take done host.now)) (slice_index_or host.now done (Clock 0)) }
{
    match host[done] {
        HostRow::Page(words) => !is_that(marker_in(words), marker_after(start, host, done)),
        HostRow::Clock(_) => false,
        HostRow::Disrupt => false,
    }
}

// Whether it is a page row with the marker of an earlier page.
fn brings_back(start: Option<u64>, host: &[HostRow], done: usize) -> bool
    requires { done < length host.now }
    ensures { result ≡ is_brought_back start (take done host.now) (slice_index_or host.now done (Clock 0)) }
{
    match host[done] {
        HostRow::Page(words) => has_stood(start, host, done, marker_in(words)),
        HostRow::Clock(_) => false,
        HostRow::Disrupt => false,
    }
}

// Whether the row at a host position is a page row with another marker than the page just before it.
#[tactic(auto, using(crate::proofs::Walking::no_change_past))]
pub(crate) fn changes_at(start: Option<u64>, host: &[HostRow], position: u64) -> bool
    ensures { result ≡ is_changed_at start host.now position }
{
    let done = position.saturating_sub(1) as usize;
    if host.len() <= done {
        return false;
    }
    changes(start, host, done)
}

// Whether it is, moreover, a page row with the marker of an earlier page.
#[tactic(auto, using(crate::proofs::Walking::no_repeat_past))]
pub(crate) fn repeats_at(start: Option<u64>, host: &[HostRow], position: u64) -> bool
    ensures { result ≡ is_repeated_at start host.now position }
{
    let done = position.saturating_sub(1) as usize;
    if host.len() <= done {
        return false;
    }
    changes(start, host, done) && brings_back(start, host, done)
}
