//! Laws of stamps and leases.
ghost use Rattle.bound_order.specs.Promises.{TrueAnswersKeepOrder};

/// What the steps of any answers promise where true time is told of each trusted answer, and lies in its interval.
pub fn order_laws()
    ensures kept { TrueAnswersKeepOrder }
{}
