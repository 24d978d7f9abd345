ghost use Rattle.std.specs.Prelude.{◌≡◌, ◌<◌, ◌≤◌, IfOk, vec_capacity, vec_len};
ghost use Rattle.dxc_model.specs.Histories.{kept};
ghost use Rattle.std.specs.Arc.{arc_value};
ghost use Rattle.xc_core.specs.States.{opening_of};
ghost use Rattle.xc_core.specs.Turns.{HasPass};
ghost use Rattle.craft_session.specs.Seats.{IsSeated, IsUserSeated, seat_at, user_seat_at};

use crate::attending::Attending;
use crate::desk::Desk;
use crate::guesses::Guesses;
use crate::seat::Seat;
use crate::secrets::{Operation, Secrets};
use crate::users::{UserDesk, UserSeat};
use arrayvec::ArrayVec;
use dbchg_reports::KEPT;
use dxc_causes::NoMemory;
use dxc_disk::Disk;
use dxc_model::{Change, Conn, SessionUser};
use dxc_notes::Standing;
use fabric_words::Fabric;
use shelf_file::Shelf;
use std::alloc::Global;
use std::marker::Model;
use std::sync::Arc;
use tl1_answer::Answer;
use tl1_text::UnitReader;
use turnstile::{Pass, Turnstile};
use user_admin::SharedUsers;
use xc_core::State;

/// The most bytes of one read.
const PIECE: usize = 4096;

/// What the sessions of one place need: the shelf, its seats at the state and at the users, and all buffers. Contracts see
/// shelf and seats.
#[derive(Drop)]
pub struct Place<D: Disk, U: Disk> {
    pub(crate) desk: Desk<D, U>,
    pub(crate) piece: Vec<u8>,
}

impl<D: Disk, U: Disk> Model for Place<D, U> {
    ghost use Rattle.std.specs.Prelude.{◌<◌, vec_len};
    ghost use Rattle.std.specs.Arc.{arc_value};
    ghost use Rattle.craft_session.specs.Seats.{PlaceAt, place_coded};

    ghost Value = { PlaceAt };

    ghost coded = { place_coded };

    ghost view = { λ p. record
        { shelf = arc_value p.desk.shelf; seat = p.desk.seat; users = p.desk.users.seat } };

    ghost invariant = { λ p. 0 < vec_len p.piece };
}

/// Room for rows, for changes and for a read.
// Apart, since each call that may fail here has no place's parts to drop.
fn buffers(alloc: Global, ports: usize) -> Result<(Vec<Conn>, Vec<Change>, Vec<u8>), NoMemory>
    ensures { IfOk result
        (λ b. (ports ≤ vec_capacity b.0) × (kept ≤ vec_capacity b.1) × (0 < vec_len b.2)) }
{
    let rows = Vec::with_capacity(alloc, ports)?;
    let changes = Vec::with_capacity(alloc, KEPT)?;
    let piece = Vec::from_elem(alloc, 0, PIECE)?;
    Ok((rows, changes, piece))
}

impl<D: Disk + Drop, U: Disk + Drop> Place<D, U> {
    /// A place of the turnstiles of the state, whose Provisioner writes the fabric's registers, and of the users, on the shelf, which is of the
    /// same shape. Its passes have one number. It takes all memory that its sessions need.
    pub fn new(
        alloc: Global,
        pass: Pass,
        users_pass: Pass,
        number: u16,
        shelf: Arc<Shelf>,
        fabric: Arc<Fabric>,
        turns: Arc<Turnstile<State<D>>>,
        users: Arc<Turnstile<SharedUsers<U>>>,
    ) -> Result<Place<D, U>, NoMemory>
        requires number { number ≡ pass.number }
        requires users_number { number ≡ users_pass.number }
        requires seated { IsSeated D.told D.state pass (arc_value turns) (arc_value fabric) }
        requires users_seated { IsUserSeated U.state users_pass (arc_value users) }
        requires shape { (opening_of D.state (arc_value turns).first).first.fold.table.shape
            ≡ (arc_value shelf).shape }
        ensures { IfOk result (λ p. p ≡ record {
          shelf = arc_value shelf;
          seat = seat_at D.state
              pass (arc_value turns);
          users = user_seat_at U.state users_pass (arc_value users);
        }) }
    {
        let _ = number;
        let (rows, changes, piece) = buffers(alloc, shelf.shape().ports() as usize)?;
        let seat = Seat::new(pass, turns, fabric);
        let users = UserDesk {
            seat: UserSeat::new(users_pass, users),
            rows: ArrayVec::new(),
            guesses: Guesses::new(),
            secrets: Secrets::new(),
            asked: Operation::new(),
        };
        let attending = Attending {
            user: SessionUser::Nobody,
            watch: None,
        };
        let desk = Desk {
            shelf,
            seat,
            users,
            attending,
            reader: UnitReader::new(),
            standing: Standing::unknown(),
            answer: Answer::new(),
            rows,
            changes,
            text: ArrayVec::new(),
        };
        Ok(Place { desk, piece })
    }

    /// The pass of its seat at the state, and the turnstile, when its sessions are over.
    pub fn into_pass(self) -> (Pass, Arc<Turnstile<State<D>>>)
        ensures seat { seat_at D.state result.0 (arc_value result.1) ≡ self.seat }
        ensures pass { HasPass (arc_value result.1) result.0 }
    {
        let Place { desk, piece: _ } = self;
        let Desk {
            shelf: _,
            seat,
            users: _,
            attending: _,
            reader: _,
            standing: _,
            answer: _,
            rows: _,
            changes: _,
            text: _,
        } = desk;
        seat.into_pass()
    }
}
