//! An answer at the head of a text.
ghost use Rattle.std.specs.Prelude.{◌≡◌, ◌≢◌, ℕ, List, ◌++◌, IfSome, IfNone};
ghost use Rattle.lawful_report.specs.Lines.{answered_line};

use interval_now::Answer;
use lawful_report::{Call, Printed, after_line};

/// What follows the line of this answer to a call, where the text begins with it.
pub fn after_answer<'a>(text: &'a [u8], call: Call, page: u32, answer: Answer) -> Option<&'a [u8]>
    ensures found { IfSome result (λ later. text.now ≡ answered_line call.client call.number page answer ++ later.now) }
    ensures other { IfNone result ((later : List ℕ) → text.now ≢ answered_line call.client call.number page answer ++ later) }
{
    let line = Printed::Answered {
        client: call.client,
        call: call.number,
        page,
        answer,
    };
    after_line(text, &line)
}
