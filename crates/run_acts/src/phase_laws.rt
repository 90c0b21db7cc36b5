//! Laws of the steps that were served. Each function does nothing: its contract is the law.

ghost use Rattle.run_acts.specs.PhaseLaws.{EventsInOrderServe};

/// Events whose calls are those steps, in order, serve the steps in each mode: each application's calls too are its calls of the steps, in
/// order.
#[tactic(auto, using(crate::proofs::ServedSteps::events_in_order_serve))]
pub fn events_in_order_serve()
    ensures { EventsInOrderServe }
{}
