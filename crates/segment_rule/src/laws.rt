//! What a client's answer stands on, whatever others did meanwhile.
ghost use Rattle.segment_rule.specs.Answered.{AnswersStand, ReadsAnswerTime};

use interval_now::call_laws;

/// What each answer of a client's call stands on.
pub fn answer_laws()
    // Each answer has its cause in the loads of its own call: an interval and a reading before the record stand on a record that was read
    // by one try, which is the history's entry at its front where fewer publications than a period fell into the try.
    ensures stand { AnswersStand }

    // A call whose tries read a record and the page, where there is one, and whose clock isn't early, answers an interval.
    ensures complete { ReadsAnswerTime }
{
    call_laws();
}
