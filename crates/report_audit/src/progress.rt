ghost use Rattle.std.specs.Prelude.{◌≡◌, ◌++◌, [], ◌∷◌, OnOk};

use lawful_report::Entry;
use status_machine::Daemon;
use std::alloc::AllocError;

/// What the daemon's lines have come to.
#[derive(Debug, Drop)]
pub struct Progress {
    /// How many polls have their lines.
    pub polled: u32,
    /// The position before the first entry.
    pub before: u64,
    /// The records published, each with its rows.
    pub entries: Vec<Entry>,
    pub point: u64,
    /// The clock row and the page that the daemon saw last.
    pub row: u32,
    pub page: u32,
    /// The daemon, none while it is stopped.
    pub life: Option<Daemon>,
}

/// Appends an entry.
pub fn push_entry(entries: &mut Vec<Entry>, entry: Entry) -> Result<(), AllocError>
    ensures { OnOk result (entries.new.items ≡ entries.old.items ++ entry ∷ []) }
{
    entries.push(entry)?;
    Ok(())
}
