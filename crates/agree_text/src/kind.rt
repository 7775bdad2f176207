//! The kinds of a text's records.
ghost use Rattle.std.specs.Prelude.{◌≡◌};
ghost use Rattle.agree_text.specs.Kind.{allows};

use csv_records::Worded;

/// What a record is about, by its first field.
#[derive(Clone, Copy, Debug, PartialEq, Eq)]
pub enum Kind {
    Header,
    Set,
    Drop,
    Ask,
}

pub const KINDS: [Kind; 4] = [Kind::Header, Kind::Set, Kind::Drop, Kind::Ask];

impl Worded for Kind {
    ghost use Rattle.agree_text.specs.Kind.{word_of as spelled};

    ghost word_of = { spelled };

    #[tactic(auto, unfolding(crate::specs::Kind::word_of))]
    fn word(self) -> &'static [u8] {
        match self {
            Kind::Header => b"agree-trace",
            Kind::Set => b"set",
            Kind::Drop => b"drop",
            Kind::Ask => b"ask",
        }
    }
}

/// Whether a record of this kind may have so many fields.
pub fn allows(kind: Kind, fields: usize) -> bool
    ensures { result ≡ allows kind fields }
{
    match kind {
        Kind::Header => fields == 2,
        Kind::Set => fields == 4,
        Kind::Drop => fields == 2,
        Kind::Ask => fields == 2 || fields == 3,
    }
}
