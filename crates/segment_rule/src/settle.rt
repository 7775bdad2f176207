// What one seat has seen, another one learns.
ghost use Rattle.std.specs.Prelude.{◌≡◌, [], true, false};
ghost use Rattle.segment_rule.specs.Ruled.{TableView};
ghost use Rattle.segment_rule.specs.Settled.{IsSameBut, HasLearned, AreSettled};

use crate::client::ClientSeat;
use crate::daemon::DaemonSeat;
use crate::host::HostSeat;
use crate::plays::{Learn, Learned};
use crate::table::{HostTable, Place};

// The part is spent, and the seat learns what it had seen.
pub(crate) fn learn(table: &HostTable, seat: &mut Place, part: Place)
    requires tables { (seat.old.table_id ≡ table.now.id) × (part.table_id ≡ table.now.id) }
    requires slots { part.me.1 ≡ [] }
    requires seated { seat.old.me.0.seated ≡ true }
    ensures table { seat.new.table_id ≡ seat.old.table_id }
    ensures slots { seat.new.me.1 ≡ seat.old.me.1 }
    ensures learned { HasLearned seat.old.me.0 part.me.0 seat.new.me.0 }
{
    table.table.shared.join_seat::<Learn>(seat, part);
    table.table.shared.load::<Learned>(seat, 0);
}

impl HostTable {
    /// Tells what a client has seen by what daemon and host have done, and what the daemon has seen by what the host has done.
    ///
    /// Two parts of the client's seat are joined, one into the daemon's seat and one into the host's, and a part of the daemon's seat
    /// into the host's. No word changes, nor what any of the seats had seen or done.
    pub fn settle(&self, host: &mut HostSeat, daemon: &mut DaemonSeat, client: &mut ClientSeat)
        requires host { host.old.table ≡ self.now.id }
        requires daemon { daemon.old.table ≡ self.now.id }
        requires client { client.old.table ≡ self.now.id }
        requires hand { client.old.in_hand ≡ false }
        ensures same_host { IsSameBut host.old.view host.new.view × (host.new.table ≡ host.old.table) }
        ensures same_daemon { IsSameBut daemon.old.view daemon.new.view × (daemon.new.table ≡ daemon.old.table) × (daemon.new.is_open ≡ daemon.old.is_open) }
        ensures same_client { client.new ≡ client.old }
        ensures settled { AreSettled host.new.view daemon.new.view client.new.view }
    {
        daemon.learn(self, client.part(self));
        host.learn(self, client.part(self));
        host.learn(self, daemon.part(self));
    }
}
