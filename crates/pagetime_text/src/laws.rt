//! The grammar in its own words.
ghost use Rattle.pagetime_text.specs.Laws.{FaultsAreFirst, RowsAreSaid};

/// Which record of a text is refused, and what rows a text says, by its records.
pub fn pagetime_laws()
    ensures faults { FaultsAreFirst }
    ensures rows { RowsAreSaid }
{}
