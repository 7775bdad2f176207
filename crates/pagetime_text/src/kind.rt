//! The kinds of records.
ghost use Rattle.std.specs.Prelude.{◌≡◌};
ghost use Rattle.pagetime_text.specs.Kind.{allows};

use csv_records::Worded;

/// The kind of a record.
#[derive(Clone, Copy, Debug, PartialEq, Eq)]
pub enum Kind {
    Header,
    Page,
    Read,
}

pub const KINDS: [Kind; 3] = [Kind::Header, Kind::Page, Kind::Read];

impl Worded for Kind {
    ghost use Rattle.pagetime_text.specs.Kind.{word_of as spelled};

    ghost word_of = { spelled };

    #[tactic(auto, unfolding(crate::specs::Kind::word_of))]
    fn word(self) -> &'static [u8] {
        match self {
            Kind::Header => b"pagetime-trace",
            Kind::Page => b"page",
            Kind::Read => b"read",
        }
    }
}

/// Whether a record of a kind may have so many fields.
pub fn allows(kind: Kind, count: usize) -> bool
    ensures { result ≡ allows kind count }
{
    match kind {
        Kind::Header => count == 2,
        Kind::Page => count == 2 || count == 3,
        Kind::Read => count == 2 || count == 3,
    }
}
