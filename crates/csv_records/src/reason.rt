//! Why a record is refused.
use std::fmt;

/// Why a record of a text is refused. Shown by its name in lower case.
#[derive(Clone, Copy, Debug, PartialEq, Eq, Hash)]
pub enum Reason {
    /// Its first field is no kind of record, or it sets something that can't be set.
    Kind,
    /// It has fewer or more fields than its kind allows.
    Fields,
    /// A field that has to be a number, or to name a party, is none in its range.
    Number,
    /// A field that has to be hexadecimal has an odd number of digits, another byte, or a length that its kind
    /// doesn't allow.
    Hex,
    /// Its monotonic time is before that of the clock row before it.
    ClockBack,
    /// It needs a clock row before it, and there is none.
    NoClock,
    /// It is one more of its kind than a text may have, or brings a trace's turns above their limit.
    Limit,
    /// Its page isn't a clock page, isn't a page of the same clock as the start page, or has no start page before it.
    Page,
    /// Its image isn't a segment that a daemon could go on with.
    Image,
    /// It may not stand at this place: the header is first and once, a setting is made once and before the first
    /// clock row, turns come after it.
    Order,
}

impl fmt::Display for Reason {
    ghost use Rattle.std.specs.Prelude.{Some};
    ghost use Rattle.csv_records.specs.Reason.{name_of};

    ghost output = { λ reason. Some (name_of reason) };

    #[tactic(auto, unfolding(crate::specs::Reason::name_of))]
    fn fmt<W: fmt::Write>(&self, f: &mut fmt::Formatter<W>) -> fmt::Result {
        f.write_str(match self {
            Reason::Kind => "kind",
            Reason::Fields => "fields",
            Reason::Number => "number",
            Reason::Hex => "hex",
            Reason::ClockBack => "clockback",
            Reason::NoClock => "noclock",
            Reason::Limit => "limit",
            Reason::Page => "page",
            Reason::Image => "image",
            Reason::Order => "order",
        })
    }
}
