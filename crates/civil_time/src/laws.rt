//! What the text of an instant says.
ghost use Rattle.std.specs.Prelude.{◌≡◌, ℤ, []};
ghost use Rattle.civil_time.specs.Civil.{InstantsAreShown, InstantsHaveOneDate, IsInstant, civil_text};

/// The text of an instant is that of its date and time; it has one, which `utc_at` gives. Other instants have no text.
pub fn civil_laws()
    ensures text { InstantsAreShown }
    ensures none { (n : ℤ) → ¬ (IsInstant n) → civil_text n ≡ [] }
    ensures one { InstantsHaveOneDate }
{}
