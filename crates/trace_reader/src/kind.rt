//! The kinds of a trace's records.
ghost use Rattle.std.specs.Prelude.{◌≡◌};
ghost use Rattle.csv.specs.Records.{field_at, fields_of};
ghost use Rattle.trace_reader.specs.Kind.{allows, is_set, kind_in, plain_kind, setting, setting_by};

use csv::ByteRecord;
use csv_records::{Reason, Worded, kind_named};

/// What a record of a trace is.
#[derive(Clone, Copy)]
pub enum Kind {
    Header,
    Drift,
    Tries,
    Layout,
    Image,
    Page,
    Clock,
    Mark,
    Disrupt,
    Poll,
    Call,
    Run,
    Jobs,
}

// Those that the first field names, the frequent ones first.
const PLAIN: [Kind; 10] = [
    Kind::Run,
    Kind::Jobs,
    Kind::Call,
    Kind::Clock,
    Kind::Poll,
    Kind::Mark,
    Kind::Page,
    Kind::Disrupt,
    Kind::Image,
    Kind::Header,
];

// Those that the field after `set` names.
const SETTINGS: [Kind; 3] = [Kind::Drift, Kind::Tries, Kind::Layout];

impl Worded for Kind {
    ghost use Rattle.trace_reader.specs.Kind.{word_of as spelled};

    ghost word_of = { spelled };

    #[tactic(auto, unfolding(crate::specs::Kind::word_of))]
    fn word(self) -> &'static [u8] {
        match self {
            Kind::Header => b"clockbound-trace",
            Kind::Drift => b"drift",
            Kind::Tries => b"tries",
            Kind::Layout => b"layout",
            Kind::Image => b"image",
            Kind::Page => b"page",
            Kind::Clock => b"clock",
            Kind::Mark => b"mark",
            Kind::Disrupt => b"disrupt",
            Kind::Poll => b"poll",
            Kind::Call => b"call",
            Kind::Run => b"run",
            Kind::Jobs => b"do",
        }
    }
}

// The frequent ones by their letters, which costs least.
#[tactic(auto, unfolding(crate::specs::Kind::plain_kind, crate::specs::Kind::word_of))]
fn plain_kind(field: &[u8]) -> Option<Kind>
    ensures { result ≡ plain_kind field.now }
{
    match field {
        [b'r', b'u', b'n'] => Some(Kind::Run),
        [b'd', b'o'] => Some(Kind::Jobs),
        [b'c', b'a', b'l', b'l'] => Some(Kind::Call),
        [b'c', b'l', b'o', b'c', b'k'] => Some(Kind::Clock),
        [b'p', b'o', b'l', b'l'] => Some(Kind::Poll),
        _ => kind_named(&PLAIN, field),
    }
}

#[tactic(auto, unfolding(crate::specs::Kind::setting))]
fn setting(field: &[u8]) -> Option<Kind>
    ensures { result ≡ setting field.now }
{
    kind_named(&SETTINGS, field)
}

#[tactic(auto, unfolding(crate::specs::Kind::is_set))]
fn is_set(field: &[u8]) -> bool
    ensures { result ≡ is_set field.now }
{
    match field {
        [b's', b'e', b't'] => true,
        _ => false,
    }
}

fn setting_at(row: &ByteRecord) -> Result<Kind, Reason>
    ensures { result ≡ setting_by (field_at (fields_of row.now) 1) }
{
    match row.get(1) {
        None => Err(Reason::Fields),
        Some(field) => setting(field).ok_or(Reason::Kind),
    }
}

/// The kind of a record.
pub fn kind_in(row: &ByteRecord) -> Result<Kind, Reason>
    ensures { result ≡ kind_in (fields_of row.now) }
{
    match row.get(0) {
        None => Err(Reason::Kind),
        Some(field) => {
            if is_set(field) {
                return setting_at(row);
            }
            plain_kind(field).ok_or(Reason::Kind)
        }
    }
}

/// Whether a record of a kind may have so many fields.
pub fn allows(kind: Kind, count: usize) -> bool
    ensures { result ≡ allows kind count }
{
    match kind {
        Kind::Header => count == 2,
        Kind::Drift => count == 3,
        Kind::Tries => count == 3,
        Kind::Layout => count == 3,
        Kind::Image => count == 2,
        Kind::Page => count == 2,
        Kind::Clock => count == 3 || count == 4,
        Kind::Mark => count == 2,
        Kind::Disrupt => count == 1,
        Kind::Poll => count == 2 || count == 3,
        Kind::Call => count == 2 || count == 3,
        Kind::Run => count == 3,
        Kind::Jobs => count == 3,
    }
}
