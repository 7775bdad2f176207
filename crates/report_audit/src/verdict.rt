/// What an audit finds of a report.
#[derive(Clone, Copy, Debug, PartialEq, Eq)]
pub enum Verdict {
    /// Each line follows the rules, and nothing follows the last.
    Lawful,
    /// The first line that breaks a rule, counted from 1; where the report ends too early, the one after the last.
    Unlawful(u32),
}
