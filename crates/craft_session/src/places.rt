//! The places of one state, and of its users.
ghost use Rattle.std.specs.Prelude.{◌≡◌, ◌<◌, ◌+◌, ℕ, [], IfOk, length, vec_len};
ghost use Rattle.std.specs.Arc.{arc_value};
ghost use Rattle.user_admin.specs.Openings.{Begins as UsersBegin};
ghost use Rattle.user_admin.specs.Shared.{SharedStands as UsersStand, opening_at as shared_opening};
ghost use Rattle.user_admin.specs.States.{opening_of as users_opening};
ghost use Rattle.turnstile.specs.Passing.{Ident};
ghost use Rattle.xc_core.specs.Openings.{Begins};
ghost use Rattle.xc_core.specs.States.{opening_of};
ghost use Rattle.craft_session.specs.Places.{AreFresh, HasPlaces, IsAtOpening, IsLonePlace, IsMadeFor, fresh_pass, place_at, turnstiles_of};

use crate::place::Place;
use dxc_causes::NoMemory;
use dxc_disk::Disk;
use fabric_words::Fabric;
use shelf_file::Shelf;
use std::alloc::Global;
use std::sync::Arc;
use turnstile::{Pass, Sequential, Turnstile};
use user_admin::{SharedUsers, UserState};
use xc_core::State;

/// The turns of a state.
pub type Turns<D> = Arc<Turnstile<State<D>>>;

/// The turns of the users.
pub type UsersTurns<U> = Arc<Turnstile<SharedUsers<U>>>;

/// So many places at the state and at the users, on the shelf and on the fabric that the state's Provisioner writes. They have the numbers from 0 on.
pub fn open_places<D: Disk + Drop, U: Disk + Drop>(
    alloc: Global,
    shelf: &Arc<Shelf>,
    fabric: &Arc<Fabric>,
    state: State<D>,
    users: UserState<U>,
    count: u16,
) -> Result<Vec<Place<D, U>>, NoMemory>
    requires some { 0 < count }
    requires begins { Begins D.told D.state state }
    requires users_begin { UsersBegin U.told U.state users }
    requires opening { IsAtOpening (opening_of D.state state) (arc_value shelf.now)
        (arc_value fabric.now) }
    ensures each { IfOk result (λ ps. vec_len ps ≡ count) }
    ensures places { IfOk result (λ ps. HasPlaces (arc_value shelf.now) (opening_of D.state state)
        (users_opening U.state users) count ps.items) }
{
    let (turns, mut passes) = turns_of(alloc, state, count)?;
    let shared = SharedUsers::of(alloc, users)?;
    let (users, mut users_passes) = turns_of(alloc, shared, count)?;
    let mut places = Vec::with_capacity(alloc, count as usize)?;
    for number in 0..count {
        let pass = next_pass(&mut passes);
        let users_pass = next_pass(&mut users_passes);
        let place = place_of(
            alloc, number, pass, users_pass, shelf, fabric, &turns, &users,
        )?;
        places.push_reserved(place);
    }
    Ok(places)
}

/// A turnstile of the state, and its passes, which have the numbers from 0 on.
pub fn turns_of<S: Sequential + Drop>(
    alloc: Global,
    state: S,
    count: u16,
) -> Result<(Arc<Turnstile<S>>, Vec<Pass>), NoMemory>
    requires some { 0 < count }
    requires stands { S.stands state [] }
    ensures turns { IfOk result
        (λ r. ((arc_value r.0).first ≡ state) × ((arc_value r.0).passes ≡ count)) }
    // Which turnstile it is tells how it was made.
    ensures made { IfOk result
        (λ r. IsMadeFor (S.opening_code.code (S.opening state)) count (arc_value r.0).id) }
    ensures each { IfOk result (λ r. length r.1.items ≡ count) }
    ensures fresh { IfOk result (λ r. AreFresh (arc_value r.0).id 0 r.1.items) }
{
    let (turns, passes) = Turnstile::new(alloc, state, count)?;
    let Ok(turns) = Arc::new(alloc, turns) else {
        return Err(NoMemory);
    };
    Ok((turns, passes))
}

/// Takes the first of some passes, that with the lowest number.
pub fn next_pass(passes: &mut Vec<Pass>) -> Pass
    requires some { 0 < length passes.old.items }
    ensures next { (id : Ident) → (n : ℕ) → AreFresh id n passes.old.items
        → (result ≡ fresh_pass id n) × AreFresh id (n + 1) passes.new.items }
    ensures fewer { length passes.new.items + 1 ≡ length passes.old.items }
{
    passes.remove(0)
}

/// The place of these passes, which have that number and have seen nothing.
pub fn place_of<D: Disk + Drop, U: Disk + Drop>(
    alloc: Global,
    number: u16,
    pass: Pass,
    users_pass: Pass,
    shelf: &Arc<Shelf>,
    fabric: &Arc<Fabric>,
    turns: &Turns<D>,
    users: &UsersTurns<U>,
) -> Result<Place<D, U>, NoMemory>
    requires fresh { pass ≡ fresh_pass (arc_value turns.now).id number }
    requires users_fresh { users_pass ≡ fresh_pass (arc_value users.now).id number }
    requires within { number < (arc_value turns.now).passes }
    requires users_within { number < (arc_value users.now).passes }
    requires begins { Begins D.told D.state (arc_value turns.now).first }
    requires users_stand { UsersStand U.told U.state (arc_value users.now).first [] }
    requires opening { IsAtOpening (opening_of D.state (arc_value turns.now).first)
        (arc_value shelf.now) (arc_value fabric.now) }
    requires places { (arc_value users.now).passes ≡ (arc_value turns.now).passes }
    ensures { IfOk result
        (λ p. p ≡ place_at (arc_value shelf.now) (opening_of D.state (arc_value turns.now).first)
        (shared_opening U.state (arc_value users.now).first)
        (turnstiles_of (arc_value turns.now) (arc_value users.now)) number) }
{
    let (Ok(shelf), Ok(fabric), Ok(turns), Ok(users)) = (
        Arc::try_clone(shelf),
        Arc::try_clone(fabric),
        Arc::try_clone(turns),
        Arc::try_clone(users),
    ) else {
        return Err(NoMemory);
    };
    Place::new(alloc, pass, users_pass, number, shelf, fabric, turns, users)
}

/// The one place at the state and at the users.
pub fn lone_place<D: Disk + Drop, U: Disk + Drop>(
    alloc: Global,
    shelf: &Arc<Shelf>,
    fabric: &Arc<Fabric>,
    state: State<D>,
    users: UserState<U>,
) -> Result<Place<D, U>, NoMemory>
    requires begins { Begins D.told D.state state }
    requires users_begin { UsersBegin U.told U.state users }
    requires opening { IsAtOpening (opening_of D.state state) (arc_value shelf.now)
        (arc_value fabric.now) }
    ensures { IfOk result (λ p. IsLonePlace (arc_value shelf.now) (opening_of D.state state)
        (users_opening U.state users) p) }
{
    let mut places = open_places(alloc, shelf, fabric, state, users, 1)?;
    Ok(places.remove(0))
}
