use crate::pages::Pages;
use clock_gate::List;
use lawful_report::{Call, Seen};

/// What an auditor makes of a trace before it reads a report.
#[derive(Debug, Drop)]
pub struct Known {
    pub pages: Pages,
    /// The markers of the pages by their numbers; none without a page.
    pub markers: List<u64>,
    /// The calls, client by client.
    pub calls: List<Call>,
    /// What each client has seen before its first call.
    pub first: Seen,
}
