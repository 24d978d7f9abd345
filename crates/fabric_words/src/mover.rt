ghost use Rattle.std.specs.Prelude.{◌≡◌, ◌<◌, ◌↔◌, [], length, IsTrue};
ghost use Rattle.fabric_core.specs.declared.event.CoreEvent.TheVariants.{SetIn, SetMid, SwitchOut, ClearOut, ClearMid, ClearIn};
ghost use Rattle.fabric_core.specs.Passing.{Passed};
ghost use Rattle.fabric_core.specs.State.{IsSize, new_mover, looks_of};
ghost use Rattle.fabric_core.specs.Moving.{looked};
ghost use Rattle.fabric_core.specs.Steps.{Moves};
ghost use Rattle.fabric_core.specs.Allowed.{MayMove};
ghost use Rattle.fabric_core.specs.Owned.{IsMoverRuled};
ghost use Rattle.fabric_words.specs.declared.table.View.TheVariants.{AsMover};
ghost use Rattle.fabric_words.specs.Places.{IsRegInside, reg_word};

use crate::fabric::Fabric;
use crate::layout::Layout;
use crate::looks::Looks;
use crate::path::{forget_after, middle_of};
use crate::permit::Permit;
use crate::plays::{ClearsIn, ClearsMid, ClearsOut, LooksAt, Reads, SetsIn, SetsMid, Switches};
use crate::stand::Stand;
use crate::table::{Aim, Token};
use dxc_num::{Leg, Middle, Reg};
use fabric_core::{Phase, Size};
use std::marker::Model;

/// The seat of the one that writes the registers. It knows all their words, and keeps its phase, the number of its switches, and what its
/// looks at each worker have told.
#[derive(Drop)]
pub struct MoverSeat {
    pub(crate) token: Token,
    layout: Layout,
    phase: Stand,
    // The input module and the output module of the leg that the phase names.
    row: u16,
    column: u16,
    switches: u64,
    seen: Looks,
}

impl Model for MoverSeat {
    ghost use Rattle.fabric_words.specs.Seats.{MoverAt, mover_in, IsMoverSeat, AreModules};

    ghost Value = { MoverAt };

    ghost view = { λ s. record {
      fabric = record { table = s.token.table_id; size = s.layout };
      mover = mover_in s.token.me.0;
    } };

    ghost invariant = { λ s. IsMoverSeat s.layout s.token.me s.phase s.switches s.seen
        × AreModules s.layout.shape s.phase s.row s.column };
}

impl MoverSeat {
    pub(crate) fn of(token: Token, size: Size) -> MoverSeat
        requires sized { IsSize size }
        requires role { token.me ≡ (AsMover size size.workers (new_mover size), []) }
        ensures { result ≡ record
            { fabric = record { table = token.table_id; size = size }; mover = new_mover size } }
    {
        MoverSeat {
            token,
            layout: Layout::of(size),
            phase: Stand::new(),
            row: 0,
            column: 0,
            switches: 0,
            seen: Looks::new(),
        }
    }

    /// Which path the mover is about.
    #[inline(always)]
    pub fn phase(&self) -> Phase
        ensures value { result ≡ self.now.mover.phase }
        ensures sized { IsSize self.now.fabric.size }
        ensures ruled { IsMoverRuled self.now.fabric.size self.now.mover }
    {
        self.phase.phase()
    }

    /// How many switches were made since the fabric was made.
    pub fn switches(&self) -> u64
        ensures { result ≡ length self.now.mover.log }
    {
        self.switches
    }

    /// Whether no frame runs in this worker that ran when the phase Old began, as far as the looks at it since then tell: one gave an even
    /// number, or an odd one other than the first odd one.
    #[inline(always)]
    pub fn passed(&self, worker: u16) -> bool
        requires { worker < self.now.fabric.size.workers }
        ensures { IsTrue result ↔ Passed (looks_of self.now.mover worker) }
    {
        self.seen.passed(worker)
    }

    /// Begins a path for a leg over a middle: its IN word.
    #[inline(always)]
    pub fn set_in(&mut self, fabric: &Fabric, leg: Leg, middle: Middle, permit: &Permit)
        requires own { self.old.fabric ≡ fabric.now }
        requires permitted { permit.now ≡ self.old.mover.written }
        requires allowed { MayMove self.old.fabric.size self.old.mover (SetIn leg middle) }
        ensures fabric { self.new.fabric ≡ self.old.fabric }
        ensures event { Moves self.old.fabric.size self.old.mover (SetIn leg middle)
            self.new.mover }
    {
        let _ = permit;
        let row = self.layout.module_of(leg.input);
        let column = self.layout.module_of(leg.output);
        let slot = self.layout.slot_of(leg.input) as u64;
        let word = self.layout.of_in(row, middle);
        let aim = Aim { leg, middle };
        let shared = &fabric.board.shared;
        shared.compare_exchange_with::<SetsIn>(&mut self.token, word, 0, slot + 1, &aim);
        self.row = row;
        self.column = column;
        self.phase.begin(leg, middle);
    }

    /// Sets the MID word of the path that was begun.
    #[inline(always)]
    pub fn set_mid(&mut self, fabric: &Fabric, permit: &Permit)
        requires own { self.old.fabric ≡ fabric.now }
        requires permitted { permit.now ≡ self.old.mover.written }
        requires allowed { MayMove self.old.fabric.size self.old.mover SetMid }
        ensures fabric { self.new.fabric ≡ self.old.fabric }
        ensures event { Moves self.old.fabric.size self.old.mover SetMid self.new.mover }
    {
        let _ = permit;
        let (_, to) = self.phase.path();
        let word = self.layout.of_mid(to, self.column);
        let value = self.row as u64 + 1;
        let shared = &fabric.board.shared;
        shared.store::<SetsMid>(&mut self.token, word, value);
        self.phase.go_on();
    }

    /// Turns OUT to the path: the leg is joined, or moved. Its number is one more than `switches()`.
    #[inline(always)]
    pub fn switch_out(&mut self, fabric: &Fabric, permit: &Permit)
        requires own { self.old.fabric ≡ fabric.now }
        requires permitted { permit.now ≡ self.old.mover.written }
        requires allowed { MayMove self.old.fabric.size self.old.mover SwitchOut }
        ensures fabric { self.new.fabric ≡ self.old.fabric }
        ensures event { Moves self.old.fabric.size self.old.mover SwitchOut self.new.mover }
    {
        let _ = permit;
        let (leg, to) = self.phase.path();
        let word = self.layout.of_out(leg.output);
        let number = self.switches + 1;
        let value = number * 256 + to.0 as u64 + 1;
        let shared = &fabric.board.shared;
        let found = shared.swap::<Switches>(&mut self.token, word, value);
        self.switches = number;
        self.phase.turn(found);
        forget_after(found, &mut self.seen);
    }

    /// Clears OUT of an established leg: it is parted.
    #[inline(always)]
    pub fn clear_out(&mut self, fabric: &Fabric, leg: Leg, permit: &Permit)
        requires own { self.old.fabric ≡ fabric.now }
        requires permitted { permit.now ≡ self.old.mover.written }
        requires allowed { MayMove self.old.fabric.size self.old.mover (ClearOut leg) }
        ensures fabric { self.new.fabric ≡ self.old.fabric }
        ensures event { Moves self.old.fabric.size self.old.mover (ClearOut leg) self.new.mover }
    {
        let _ = permit;
        let row = self.layout.module_of(leg.input);
        let column = self.layout.module_of(leg.output);
        let word = self.layout.of_out(leg.output);
        let shared = &fabric.board.shared;
        let found = shared.swap::<ClearsOut>(&mut self.token, word, 0);
        self.row = row;
        self.column = column;
        self.phase.leave(leg, middle_of(found));
        self.seen.forget();
    }

    /// Looks at the frame word of a worker.
    #[inline(always)]
    pub fn look(&mut self, fabric: &Fabric, worker: u16) -> u64
        requires own { self.old.fabric ≡ fabric.now }
        requires low { worker < self.old.fabric.size.workers }
        ensures fabric { self.new.fabric ≡ self.old.fabric }
        ensures event { self.new.mover ≡ looked worker result self.old.mover }
    {
        let word = self.layout.of_frame(worker);
        let shared = &fabric.board.shared;
        let found = shared.load::<LooksAt>(&mut self.token, word);
        self.seen.note(worker, found);
        found
    }

    /// Clears the MID word of the path that was left, once all workers have passed, or of one that is half built.
    #[inline(always)]
    pub fn clear_mid(&mut self, fabric: &Fabric, permit: &Permit)
        requires own { self.old.fabric ≡ fabric.now }
        requires permitted { permit.now ≡ self.old.mover.written }
        requires allowed { MayMove self.old.fabric.size self.old.mover ClearMid }
        ensures fabric { self.new.fabric ≡ self.old.fabric }
        ensures event { Moves self.old.fabric.size self.old.mover ClearMid self.new.mover }
    {
        let _ = permit;
        let (_, old) = self.phase.path();
        let word = self.layout.of_mid(old, self.column);
        let shared = &fabric.board.shared;
        shared.store::<ClearsMid>(&mut self.token, word, 0);
        self.phase.free();
    }

    /// Clears the IN word of a path whose MID word is none.
    #[inline(always)]
    pub fn clear_in(&mut self, fabric: &Fabric, permit: &Permit)
        requires own { self.old.fabric ≡ fabric.now }
        requires permitted { permit.now ≡ self.old.mover.written }
        requires allowed { MayMove self.old.fabric.size self.old.mover ClearIn }
        ensures fabric { self.new.fabric ≡ self.old.fabric }
        ensures event { Moves self.old.fabric.size self.old.mover ClearIn self.new.mover }
    {
        let _ = permit;
        let (_, old) = self.phase.path();
        let word = self.layout.of_in(self.row, old);
        let shared = &fabric.board.shared;
        shared.store::<ClearsIn>(&mut self.token, word, 0);
        self.phase.rest();
    }

    /// Loads a register. It changes nothing.
    pub fn load(&mut self, fabric: &Fabric, reg: Reg) -> u64
        requires own { self.old.fabric ≡ fabric.now }
        requires inside { IsRegInside self.old.fabric.size.shape reg }
        ensures same { self.new ≡ self.old }
        ensures word { result ≡ reg_word self.old.fabric.size.shape self.old.mover.registers reg }
    {
        let word = self.layout.of_reg(reg);
        let shared = &fabric.board.shared;
        shared.load::<Reads>(&mut self.token, word)
    }
}
