//! What the jobs of `serve` did that have run, as the contract of a function without parameters.
#![tactic(auto)]

ghost use Rattle.dxc_jobs.specs.Offices.{office};
ghost use Rattle.serve_laws.specs.Headline.{IsHeadline};
ghost use Rattle.serve_laws.specs.Jobs.{means, world};

use core_laws::{
    crashes_stand_for_operations, readings_stand_for_operations, standbys_are_adopted,
};
use craft_session::Timestamps;
use dxc_disk::Disk;
use dxc_leaving::LetGo;
use dxc_outside::{Gate, Lines, Link, Listener, Opener, Spawner};
use frame_worker::laws::own_bytes;
use standby_link::laws::copies_are_readings;
use user_laws::{crashes_stand_for_users, standbys_stand_for_users};

/// The headline of the README as one law, of a server whose line ended with Done, at any states of its two turnstiles and of its fabric that their rules
/// allow and in which passes and workers know what the places and seats know that jobs left.
///
/// One history of the table and one of the users stand behind them. One plain element, begun on what was opened, comes to the one by some order of turns, and
/// wrote each link its bytes, or a first part where a write failed; one list of users comes to the other, and told what each session heard. The entries of both
/// have one order, in which each place's own come as it took them, and one order of turns plays both in it. Each file that a crash may leave of the journal, where
/// the Provisioner is home, stands for that history's changes, or for one more. One that a crash at an earlier moment left, since the start, stands for those of
/// its first operations, with all that had ended by then, or for one more. So does a standby's copy, where its name has a file: of each primary that
/// the journal's disk reads along with, with all that ended by the last sync which that answered while Joined. The fabric is hitless, and each frame was carried over
/// its own connections.
///
/// Each premise is what clauses give, or the kit's model. The jobs, what they did and left, and that their places are of one turnstile of each: `run` of
/// `dxc_run`, by `places` of `open_places` and `left` of `run_all`. That a turnstile was made with a state of the opening, for so many passes: `turns` of
/// `turns_of`. That a pass of a place rests, and is of the place's turnstile: the invariants of `Pass` and of `Seat`. That its table's state says of a pass, or
/// of a worker's seat, what that knows, and that each state is one that the rule allows: the model of the kit's `atomic_table`.
pub fn headline<O: Opener + LetGo, D: Disk, P: Spawner>()
where
    O::Clock: Timestamps,
    ensures { IsHeadline (world (office O.Opener O.Journal.Disk O.Listener.Listener
        O.Listener.Link.Link) D.Disk (means O.Lines.Lines O.Clock.Timestamps O.Gate.Gate) O.gone)
        P.handed }
{
    // Their laws: they name no lemma.
    own_bytes();
    standbys_are_adopted::<D>();
    readings_stand_for_operations::<D>();
    crashes_stand_for_operations::<D>();
    crashes_stand_for_users::<D>();
    standbys_stand_for_users::<D>();
    copies_are_readings::<D>();
}
