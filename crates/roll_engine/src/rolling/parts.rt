//! The parts of a cold rolling.
ghost use Rattle.std.specs.Prelude.{◌≡◌, ◌<◌, ◌+◌, ◌^◌, [], IfSome, MatchOption};
ghost use Rattle.dxc_num.specs.Dimensions.{leg_between, ports};
ghost use Rattle.roll_plan.specs.Works.{part_writes};
ghost use Rattle.roll_engine.specs.Rollings.{rest_of};
ghost use Rattle.roll_engine.specs.Cold.{IsNextHeld, parts_behind};

use crate::rolling::{Behind, Rolling};
use dxc_num::{Leg, Port, Route};
use fabric_words::{Fabric, MoverSeat};
use roll_plan::{LegOp, Work};

// The next output with a leg that stands, from this one on, as the registers tell it.
pub(super) fn next_held(fabric: &Fabric, mover: &mut MoverSeat, from: Port) -> Option<(Port, Route)>
    requires own { mover.old.fabric ≡ fabric.now }
    ensures same { mover.new ≡ mover.old }
    ensures next { MatchOption result (parts_behind mover.old.mover.legs from.0 ≡ [])
        (IsNextHeld fabric.now.size.shape mover.old.mover.legs from) }
    ensures fits { IfSome result (λ n. n.0.0 + 1 < 2 ^ 16) }
{
    // Its clauses tell that the network is within the limits, and that there is a leg or none for each port.
    let _phase = mover.phase();
    for number in from.0..fabric.shape().ports() {
        let output = Port(number);
        if let Some(route) = mover.leg_at(fabric, output) {
            return Some((output, route));
        }
    }
    None
}

impl Rolling {
    ghost use Rattle.roll_engine.specs.declared.rolling.Behind.TheVariants.{PartsFrom};

    // The part of one leg, and then those of the outputs after its own.
    pub(super) fn parting(output: Port, route: Route) -> Rolling
        requires { output.0 + 1 < 2 ^ 16 }
        ensures rest { rest_of result ≡ part_writes (leg_between route.input output) route.middle }
        ensures behind { result.behind ≡ PartsFrom (record { 0 = output.0 + 1 }) }
    {
        let leg = Leg {
            input: route.input,
            output,
        };
        Rolling {
            work: Work::of(LegOp::Part {
                leg,
                middle: route.middle,
            }),
            step: 0,
            behind: Behind::PartsFrom(Port(output.0 + 1)),
        }
    }
}
