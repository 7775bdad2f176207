//! What a lawful report is worth to those who make one.
ghost use Rattle.lawful_report.specs.Composed.{ThreadsAreLawful};
ghost use Rattle.lawful_report.specs.Showed.{Dominates};

/// What the definition of a lawful report gives to those who make one.
///
/// `lawful`: where the daemon's lines follow one another, and the loads of each client show what its calls said, the report is
/// lawful. `least`: a report stands for the least points that fit its lines, and so never overtakes what the loads showed.
pub fn report_laws()
    ensures lawful { ThreadsAreLawful }
    ensures least { Dominates }
{}
