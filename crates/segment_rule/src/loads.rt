// Loads of a client's call, each added to the view of its seat.
ghost use Rattle.std.specs.Prelude.{◌≡◌, ◌<◌, true, false, length};
ghost use Rattle.segment_rule.specs.Ruled.{MayLoadWord, TellsLoad, TellsLoads};

use crate::plays::{Begin, Load};
use crate::table::{HostTable, Place};

// The first load of a call, of word 1.
pub(crate) fn load_first(table: &HostTable, seat: &mut Place) -> u64
    requires table { seat.old.table_id ≡ table.now.id }
    requires seated { seat.old.me.0.seated ≡ true }
    ensures table { seat.new.table_id ≡ seat.old.table_id }
    ensures slots { seat.new.me.1 ≡ seat.old.me.1 }
    ensures told { TellsLoad true 1 seat.old.me.0 result result seat.new.me.0 }
{
    table.table.shared.load::<Begin>(seat, 1)
}

// A later load.
pub(crate) fn load_later(table: &HostTable, seat: &mut Place, word: usize) -> u64
    requires table { seat.old.table_id ≡ table.now.id }
    requires seated { seat.old.me.0.seated ≡ true }
    requires few { word < 24 }
    requires may { MayLoadWord word seat.old.me.0 }
    ensures table { seat.new.table_id ≡ seat.old.table_id }
    ensures slots { seat.new.me.1 ≡ seat.old.me.1 }
    ensures told { TellsLoad false word seat.old.me.0 result result seat.new.me.0 }
{
    table.table.shared.load::<Load>(seat, word)
}

// Loads words 2 to 9, one after another.
pub(crate) fn load_words(table: &HostTable, seat: &mut Place) -> [u64; 8]
    requires table { seat.old.table_id ≡ table.now.id }
    requires seated { seat.old.me.0.seated ≡ true }
    ensures table { seat.new.table_id ≡ seat.old.table_id }
    ensures slots { seat.new.me.1 ≡ seat.old.me.1 }
    ensures told { TellsLoads 2 result seat.old.me.0 seat.new.me.0 }
    ensures eight { length result ≡ 8 }
{
    let mut words = [0; 8];
    'loading: for i in 0..8 {
        words[i] = table.table.shared.load::<Load>(seat, 2 + i);
    }
    words
}
