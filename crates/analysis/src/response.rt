// The completion-time equation: the least time that is enough for the demand at it.
ghost use Rattle.std.specs.Prelude.{◌≡◌, ◌≤◌};
ghost use Rattle.analysis.specs.Inside.Demand.{Tallies};
ghost use Rattle.analysis.specs.Inside.Response.{response_to};

use crate::demand::{Tally, demand};

// The published iteration: from blocking plus the frame, a round replaces the time by the demand at it, until it is enough or over the deadline.
pub fn respond(above: &[Tally], blocked: u32, own: u32, deadline: u32) -> Option<u32>
    requires { Tallies above.now × (1 ≤ own) }
    ensures { (tallies : Tallies above.now) → result ≡ response_to tallies.tasks blocked own deadline }
{
    let limit = deadline as u64;
    let mut x = blocked as u64 + own as u64;
    while x <= limit {
        let t = x as u32;
        let next = demand(above, blocked, own, t);
        if next <= x {
            return Some(t);
        }
        x = next;
    }
    None
}
