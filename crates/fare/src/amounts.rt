// Sums of metres, which are metres, and of won, which are won.
ghost use Rattle.std.specs.Prelude.{◌≡◌, ◌+◌, ◌*◌, ◌<◌, ◌≤◌};
ghost use Rattle.fare.specs.Amounts.{together, dearer, beyond, started_steps, plus, times, largest_held};

use super::{Metres, Won};

impl Metres {
    // not `Add`: what that asks and gives stands in ghost members, not in clauses beside the function
    pub fn together(self, other: Metres) -> Metres
        requires { self.0 + other.0 ≤ largest_held }
        ensures { result ≡ together self other }
    {
        Metres(self.0 + other.0)
    }

    pub fn beyond(self, distance: Metres) -> Metres
        ensures { result ≡ beyond self distance }
    {
        Metres(self.0.saturating_sub(distance.0))
    }

    #[tactic(auto, using(crate::proofs::Steps::divided))]
    pub fn started_steps(self, step: Metres) -> u64
        requires { 0 < step.0 }
        ensures { result ≡ started_steps self step }
    {
        self.0.div_ceil(step.0)
    }
}

impl Won {
    pub fn dearer(self, other: Won) -> Won
        ensures { result ≡ dearer self other }
    {
        self.max(other)
    }

    // not `Add`, as for `together`
    pub fn plus(self, other: Won) -> Won
        requires { self.0 + other.0 ≤ largest_held }
        ensures { result ≡ plus self other }
    {
        Won(self.0 + other.0)
    }

    // So much for each of so many steps.
    pub fn times(self, steps: u64) -> Won
        requires { steps * self.0 ≤ largest_held }
        ensures { result ≡ times steps self }
    {
        Won(steps * self.0)
    }
}
