//! The joins of a cold rolling.
ghost use Rattle.std.specs.Prelude.{◌≡◌, ◌<◌, ◌≤◌, ◌+◌, ◌^◌, [], IfSome, MatchOption};
ghost use Rattle.std.specs.Bool.{OnTrue, OnFalse};
ghost use Rattle.dxc_num.specs.Dimensions.{IsPort, leg_between, ports};
ghost use Rattle.roll_plan.specs.Works.{join_writes};
ghost use Rattle.paull_matrix.specs.Colourings.{route_at};
ghost use Rattle.roll_engine.specs.Rollings.{rest_of};
ghost use Rattle.fabric_core.specs.declared.mover.Mover.{Mover};
ghost use Rattle.roll_engine.specs.Cold.{IsNextLeg, joins_behind, left_of};

use crate::rolling::{Behind, Rolling};
use dxc_num::{Leg, Middle, Port, Route};
use paull_matrix::Matrix;
use roll_plan::{LegOp, Work};

// What an output is connected to: its leg stands in its module's column.
fn route_to(matrix: &Matrix, output: Port) -> Option<Route>
    requires { IsPort matrix.now.shape output }
    ensures { result ≡ route_at matrix.now output.0 }
{
    let shape = matrix.shape();
    let column = shape.module_of(output);
    for number in 0..shape.slots() + 1 {
        let middle = Middle(number as u8);
        if let Some(leg) = matrix.in_column(column, middle) {
            if leg.output == output {
                let input = leg.input;
                return Some(Route { input, middle });
            }
        }
    }
    None
}

// The next output with a leg, from this one on.
fn next_leg(matrix: &Matrix, from: Port) -> Option<(Port, Route)>
    ensures next { MatchOption result (joins_behind matrix.now from.0 ≡ [])
        (IsNextLeg matrix.now from) }
    ensures fits { IfSome result (λ n. n.0.0 + 1 < 2 ^ 16) }
{
    for number in from.0..matrix.shape().ports() {
        let output = Port(number);
        if let Some(route) = route_to(matrix, output) {
            return Some((output, route));
        }
    }
    None
}

impl Rolling {
    ghost use Rattle.roll_engine.specs.declared.rolling.Behind.TheVariants.{JoinsFrom};

    // The join of one leg, and then those of the outputs after its own.
    fn joining(output: Port, route: Route) -> Rolling
        requires { output.0 + 1 < 2 ^ 16 }
        ensures rest { rest_of result ≡ join_writes (leg_between route.input output) route.middle }
        ensures behind { result.behind ≡ JoinsFrom (record { 0 = output.0 + 1 }) }
    {
        let leg = Leg {
            input: route.input,
            output,
        };
        Rolling {
            work: Work::of(LegOp::direct(leg, route.middle)),
            step: 0,
            behind: Behind::JoinsFrom(Port(output.0 + 1)),
        }
    }

    // Takes the join of the matrix's first leg from this output on in hand. False: there is none.
    pub(super) fn take_join(&mut self, matrix: &Matrix, from: Port) -> bool
        ensures taken { OnTrue result
            ((m : Mover) → left_of matrix.now m self.new ≡ joins_behind matrix.now from.0) }
        ensures behind { OnTrue result ((next : Port) × (self.new.behind ≡ JoinsFrom next)
            × (from.0 < next.0) × (next.0 ≤ ports matrix.now.shape)) }
        ensures none { OnFalse result
            ((self.new ≡ self.old) × (joins_behind matrix.now from.0 ≡ [])) }
    {
        match next_leg(matrix, from) {
            Some((output, route)) => {
                *self = Rolling::joining(output, route);
                true
            }
            None => false,
        }
    }
}
