//! What a cold rolling takes in hand next.
ghost use Rattle.std.specs.Prelude.{◌≡◌, ◌<◌, ◌++◌, []};
ghost use Rattle.std.specs.Bool.{OnTrue, OnFalse};
ghost use Rattle.dxc_num.specs.Dimensions.{ports};
ghost use Rattle.roll_engine.specs.Rollings.{rest_of};
ghost use Rattle.roll_engine.specs.Cold.{IsCold, joins_of, left_of, outputs_left, parts_behind};

use super::parts::next_held;
use crate::rolling::{Behind, Rolling};
use dxc_num::Port;
use fabric_words::{Fabric, MoverSeat};
use paull_matrix::Matrix;

impl Rolling {
    ghost use Rattle.roll_engine.specs.declared.rolling.Behind.TheVariants.{PartsFrom};

    /// Takes the part or the join that comes next in hand. False: none is left.
    pub(crate) fn take_next(
        &mut self,
        matrix: &Matrix,
        fabric: &Fabric,
        mover: &mut MoverSeat,
    ) -> bool
        requires own { mover.old.fabric ≡ fabric.now }
        requires shape { matrix.now.shape ≡ fabric.now.size.shape }
        requires made { rest_of self.old ≡ [] }
        ensures mover { mover.new ≡ mover.old }
        ensures same { left_of matrix.now mover.old.mover self.new ≡ left_of matrix.now
            mover.old.mover self.old }
        ensures cold { IsCold self.old → IsCold self.new }
        ensures more { OnTrue result (outputs_left (ports matrix.now.shape)
            self.new.behind < outputs_left (ports matrix.now.shape) self.old.behind) }
        ensures none { OnFalse result (left_of matrix.now mover.old.mover self.new ≡ []) }
    {
        match self.behind {
            Behind::Nothing => false,
            Behind::PartsFrom(from) => self.take_part(matrix, fabric, mover, from),
            Behind::JoinsFrom(from) => self.take_join(matrix, from),
        }
    }

    // Takes the part of the first leg that stands from this output on in hand, or the first join where none stands. False: there is neither.
    fn take_part(
        &mut self,
        matrix: &Matrix,
        fabric: &Fabric,
        mover: &mut MoverSeat,
        from: Port,
    ) -> bool
        requires own { mover.old.fabric ≡ fabric.now }
        requires shape { matrix.now.shape ≡ fabric.now.size.shape }
        ensures mover { mover.new ≡ mover.old }
        ensures taken { OnTrue result (left_of matrix.now mover.old.mover self.new ≡ parts_behind
            mover.old.mover.legs from.0 ++ joins_of matrix.now) }
        ensures cold { OnTrue result (IsCold self.new) }
        ensures more { OnTrue result (outputs_left (ports matrix.now.shape)
            self.new.behind < outputs_left (ports matrix.now.shape) (PartsFrom from)) }
        ensures none { OnFalse result ((self.new ≡ self.old)
            × (parts_behind mover.old.mover.legs from.0 ++ joins_of matrix.now ≡ [])) }
    {
        match next_held(fabric, mover, from) {
            Some((output, route)) => {
                *self = Rolling::parting(output, route);
                true
            }
            None => self.take_join(matrix, Port(0)),
        }
    }
}
