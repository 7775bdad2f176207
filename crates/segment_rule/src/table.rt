ghost use Rattle.std.specs.Prelude.{◌≡◌, ℕ, ◌+◌, ◌<◌, ◌≤◌, [], IfOk, IsOk, Some, None, true, false, length, slice_index, is_some};
ghost use Rattle.clock_gate.specs.declared.limits.TheConstants.{MOST_HOST_ROWS, MOST_CLIENTS};
ghost use Rattle.segment_layout.specs.Image.{image_of};
ghost use Rattle.vmclock_page.specs.Rows.{IsStartPage};
ghost use Rattle.vmclock_page.specs.Host.{new_host};
ghost use Rattle.segment_views.specs.Seats.{opener, without_host, without_daemon, IsOpening, IsSetup, page_word};
ghost use Rattle.segment_rule.specs.Ruled.{TableView, table_view};

use crate::client::ClientSeat;
use crate::daemon::DaemonSeat;
use crate::host::HostSeat;
use crate::plays::{CutDaemon, CutHost, WordsRule};
use atomic_table::{Seat, Table};
use clock_gate::Memory;
use generation_word::Layout;
use segment_views::{Setup, View};
use std::alloc::Global;
use std::marker::Model;
use vmclock_page::HostMachine;

pub(crate) type Place = Seat<(), View>;

/// The 24 shared words: the segment's ten, the page's thirteen, and the row of the clock.
///
/// Contracts see which table it is, and what it was told at first.
#[derive(Drop)]
pub struct HostTable {
    pub(crate) table: Table<(), View, Setup, WordsRule, Global>,
    layout: Layout,
    rows: u32,
    support: bool,
}

impl Model for HostTable {
    ghost use Rattle.std.specs.Prelude.{◌≡◌, is_some};
    ghost use Rattle.segment_rule.specs.Ruled.{TableView, table_view};

    ghost Value = { TableView };

    ghost view = { λ t. table_view t.table.shared.table_id t.table.shared.key };

    ghost invariant = { λ t. (t.table.shared.table_id.words ≡ 24) × (t.layout ≡ t.table.shared.key.layout) × (t.rows ≡ t.table.shared.key.rows) × (t.support ≡ is_some t.table.shared.key.page) };
}

fn copied(words: &[u64; 13]) -> [u64; 13]
    ensures { result ≡ words.now }
{
    *words
}

// The words of the start page, 0 without a page.
fn page_words(page: &Option<[u64; 13]>) -> [u64; 13]
    ensures words { (i : ℕ) → i < 13 → slice_index result i ≡ page_word page.now i }
{
    match page {
        Some(words) => copied(words),
        None => [0; 13],
    }
}

// The words without the segment's.
fn bare(page: &[u64; 13]) -> [u64; 24]
    ensures page { (i : ℕ) → i < 13 → slice_index result (i + 10) ≡ slice_index page.now i }
    ensures row { slice_index result 23 ≡ 1 }
    ensures len { length result ≡ 24 }
{
    let mut words = [0; 24];
    words[10..23].copy_from_slice(page);
    words[23] = 1;
    words
}

// All words at first: the image, the page, and the clock's first row.
fn opening(image: &[u64; 10], page: &[u64; 13]) -> [u64; 24]
    ensures image { (i : ℕ) → i < 10 → slice_index result i ≡ slice_index image.now i }
    ensures page { (i : ℕ) → i < 13 → slice_index result (i + 10) ≡ slice_index page.now i }
    ensures row { slice_index result 23 ≡ 1 }
    ensures len { length result ≡ 24 }
{
    let mut words = bare(page);
    words[0..10].copy_from_slice(image);
    words
}

impl HostTable {
    /// The table of these words, with the seats of the host, the daemon and a client.
    ///
    /// `image` is one that `admit` accepts with the layout, `page` the words of the start page, which `from_words` accepts.
    /// `rows`, from 1 to 300,000, are those of the clock, and word 23 begins at the first. `clients` are from 1 to 64. The daemon's
    /// seat isn't open yet, and no client's call is in hand. `Memory` where it is wanting.
    pub fn new(
        alloc: Global,
        layout: Layout,
        image: &[u64; 10],
        page: Option<[u64; 13]>,
        rows: u32,
        clients: u32,
    ) -> Result<(HostTable, HostSeat, DaemonSeat, ClientSeat), Memory>
        requires image { IsOk (image_of layout image.now) }
        requires page { IsStartPage page }
        requires some_rows { 1 ≤ rows }
        requires most_rows { rows ≤ MOST_HOST_ROWS }
        requires some_clients { 1 ≤ clients }
        requires most_clients { clients ≤ MOST_CLIENTS }
        ensures table { IfOk result (λ t. t.0.setup ≡ record { layout = layout; image = image.now; page = page; rows = rows; clients = clients }) }
        ensures host { IfOk result (λ t. (t.1.table ≡ t.0.id) × (t.1.view ≡ without_daemon (opener t.0.setup))) }
        ensures daemon { IfOk result (λ t. (t.2.table ≡ t.0.id) × (t.2.view ≡ without_host (without_host (opener t.0.setup))) × (t.2.is_open ≡ false)) }
        ensures client { IfOk result (λ t. (t.3.table ≡ t.0.id) × (t.3.view ≡ without_daemon (without_host (opener t.0.setup))) × (t.3.in_hand ≡ false) × (t.3.is_first ≡ true) × (t.3.splits ≡ 0)) }
    {
        let host = HostMachine::new(page);
        let setup = Setup {
            layout,
            image: *image,
            page,
            rows,
            clients,
        };
        HostTable::of(alloc, &setup, host)
    }

    fn of(
        alloc: Global,
        setup: &Setup,
        machine: HostMachine,
    ) -> Result<(HostTable, HostSeat, DaemonSeat, ClientSeat), Memory>
        requires setup { IsSetup setup.now }
        requires rows { setup.now.rows ≤ MOST_HOST_ROWS }
        requires clients { setup.now.clients ≤ MOST_CLIENTS }
        requires machine { machine ≡ new_host setup.now.page }
        ensures table { IfOk result (λ t. t.0.setup ≡ setup.now) }
        ensures host { IfOk result (λ t. (t.1.table ≡ t.0.id) × (t.1.view ≡ without_daemon (opener t.0.setup))) }
        ensures daemon { IfOk result (λ t. (t.2.table ≡ t.0.id) × (t.2.view ≡ without_host (without_host (opener t.0.setup))) × (t.2.is_open ≡ false)) }
        ensures client { IfOk result (λ t. (t.3.table ≡ t.0.id) × (t.3.view ≡ without_daemon (without_host (opener t.0.setup))) × (t.3.in_hand ≡ false) × (t.3.is_first ≡ true) × (t.3.splits ≡ 0)) }
    {
        let page = page_words(&setup.page);
        let words = opening(&setup.image, &page);
        let (table, mut first) = Table::<(), View, Setup, WordsRule, Global>::of_words(
            alloc, &words, setup,
        )?;
        let host = table.shared.split_seat::<CutHost>(&mut first);
        let daemon = table.shared.split_seat::<CutDaemon>(&mut first);
        let support = setup.page.is_some();
        Ok((
            HostTable {
                table,
                layout: setup.layout,
                rows: setup.rows,
                support,
            },
            HostSeat::resting(host, machine),
            DaemonSeat::resting(daemon, setup.layout),
            ClientSeat::resting(first, support, true),
        ))
    }

    /// How many rows the clock has.
    pub fn rows(&self) -> u32
        ensures { result ≡ self.now.setup.rows }
    {
        self.rows
    }

    /// Whether there is a page.
    pub fn support(&self) -> bool
        ensures { result ≡ is_some self.now.setup.page }
    {
        self.support
    }

    /// The layout of the segment.
    pub fn layout(&self) -> Layout
        ensures { result ≡ self.now.setup.layout }
    {
        self.layout
    }
}
