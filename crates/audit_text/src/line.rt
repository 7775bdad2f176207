//! The line of a verdict.
ghost use Rattle.std.specs.Prelude.{◌≡◌, ◌++◌, IfOk, OnOk};
ghost use Rattle.std.specs.String.{string_bytes};
ghost use Rattle.audit_text.specs.Audited.{verdict_text};

use clock_gate::List;
use report_audit::Verdict;
use std::alloc::{AllocError, Global};

#[tactic(auto, unfolding(crate::specs::Audited::verdict_text))]
fn put_verdict(text: &mut String, verdict: Verdict) -> Result<(), AllocError>
    ensures { OnOk result (string_bytes text.new ≡ string_bytes text.old ++ verdict_text verdict) }
{
    match verdict {
        Verdict::Lawful => text.push_str("lawful\n"),
        Verdict::Unlawful(line) => write!(text, "unlawful,{line}\n"),
    }
}

/// `lawful`, or `unlawful` and the number of a line.
pub fn verdict_line(alloc: Global, verdict: Verdict) -> Result<List<u8>, AllocError>
    ensures { IfOk result (λ text. text ≡ verdict_text verdict) }
{
    let mut text = String::new(alloc);
    put_verdict(&mut text, verdict)?;
    Ok(List::from_vec(text.into_bytes()))
}
