//! The party that a field names.
ghost use Rattle.std.specs.Prelude.{◌≡◌};
ghost use Rattle.csv.specs.Records.{fields_of};
ghost use Rattle.trace_reader.specs.Party.{client_named, client_number, party_named, party_part};

use clock_gate::{MOST_CLIENTS, Party};
use csv::ByteRecord;
use csv_records::{Reason, number};

fn client_number(digits: &[u8]) -> Option<Party>
    ensures { result ≡ client_number digits.now }
{
    match digits {
        [] => None,
        [first, ..] => {
            if *first == b'0' {
                return None;
            }
            let client = number(digits, 1, MOST_CLIENTS as u64)?;
            Some(Party::Client(client as u32))
        }
    }
}

fn client_named(field: &[u8]) -> Option<Party>
    ensures { result ≡ client_named field.now }
{
    match field {
        [] => None,
        [first, digits @ ..] => {
            if *first != b'c' {
                return None;
            }
            client_number(digits)
        }
    }
}

#[tactic(auto, unfolding(crate::specs::Party::party_named))]
fn party_named(field: &[u8]) -> Option<Party>
    ensures { result ≡ party_named field.now }
{
    match field {
        [b'h'] => Some(Party::Host),
        [b'd'] => Some(Party::Daemon),
        _ => client_named(field),
    }
}

/// The party at a place.
pub fn read_party(row: &ByteRecord, place: usize) -> Result<Party, Reason>
    ensures { result ≡ party_part place (fields_of row.now) }
{
    match row.get(place) {
        None => Err(Reason::Number),
        Some(field) => party_named(field).ok_or(Reason::Number),
    }
}
