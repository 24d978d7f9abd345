//! What the gate gives before each register write.
ghost use Rattle.std.specs.Prelude.{◌≡◌, ◌∷◌, [], Err, IfOk};
ghost use Rattle.dxc_causes.specs.Stops.{RoseOnlyFor};
ghost use Rattle.dxc_outside.specs.Stops.{the_stop};
ghost use Rattle.dxc_outside.specs.declared.gate.GatePlace.TheVariants.{Register};

use crate::mover::MoverSeat;
use crate::table::Token;
use dxc_outside::{Gate, GatePlace, Stopped};
use std::marker::Model;
use std::snapshot::Snapshot;

/// That a gate was asked, and let the mover go on, when these register writes were made and no other. Each write asks for one that was
/// given after the write before it, so the gate is asked before each of them, with the registers as that write finds them. It has no bytes.
#[derive(Drop)]
pub struct Permit {
    asked: Snapshot<Token>,
}

impl Model for Permit {
    ghost use Rattle.std.specs.Prelude.{List};
    ghost use Rattle.dxc_num.specs.declared.register.RegWrite.{RegWrite};
    ghost use Rattle.fabric_words.specs.Seats.{mover_in};

    ghost Value = { List RegWrite };

    ghost view = { λ p. (mover_in p.asked.value.me.0).written };
}

impl MoverSeat {
    /// Asks the gate before a register write.
    #[inline(always)]
    pub fn ask<G: Gate>(&self, gate: &mut G) -> Result<Permit, Stopped>
        ensures permit { IfOk result (λ p. p ≡ self.now.mover.written) }
        ensures stopped { RoseOnlyFor (G.stops gate.old) (G.stops gate.new)
            (result ≡ Err the_stop) }
        ensures asked { G.asked gate.old gate.new (Register ∷ []) }
    {
        gate.pass(GatePlace::Register)?;
        let asked = Snapshot::of(&self.token);
        Ok(Permit { asked })
    }
}
