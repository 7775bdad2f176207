//! The kind of a record, by the word that begins it.
ghost use Rattle.std.specs.Prelude.{◌≡◌};
ghost use Rattle.csv.specs.Records.{fields_of};
ghost use Rattle.csv_records.specs.Kind.{kind_in, kind_named};

use crate::fields::is_word;
use crate::reason::Reason;
use csv::ByteRecord;

/// The kinds of some text's records, each with the word that names it.
pub trait Worded {
    ghost use Rattle.std.specs.Prelude.{◌≡◌, ℕ, List};

    ghost word_of: { Self → List ℕ };

    /// The word.
    fn word(self) -> &'static [u8]
        ensures { result.now ≡ word_of self };
}

/// The first of these kinds whose word a field is.
pub fn kind_named<K: Worded + Copy>(kinds: &[K], field: &[u8]) -> Option<K>
    ensures { result ≡ kind_named K.word_of kinds.now field.now }
{
    kinds
        .iter()
        .copied()
        .find(|kind| is_word(field, kind.word()))
}

/// The first of these kinds whose word is the record's first field. `Kind` exactly where there is none.
pub fn read_kind<K: Worded + Copy>(row: &ByteRecord, kinds: &[K]) -> Result<K, Reason>
    ensures { result ≡ kind_in K.word_of kinds.now (fields_of row.now) }
{
    match row.get(0) {
        None => Err(Reason::Kind),
        Some(field) => kind_named(kinds, field).ok_or(Reason::Kind),
    }
}
