//! A report has one verdict.
ghost use Rattle.audit_text.specs.Audited.{VerdictsAreOne};

/// What is told of a report against its trace is one text, whatever tells it.
pub fn verdict_laws()
    ensures { VerdictsAreOne }
{}
