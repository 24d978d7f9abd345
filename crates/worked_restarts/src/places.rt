//! Turnstiles and the places at them.
ghost use Rattle.std.specs.Prelude.{◌≡◌, ◌<◌, ◌+◌, ℕ, [], IfOk, length};
ghost use Rattle.std.specs.Arc.{arc_value};
ghost use Rattle.turnstile.specs.Passing.{Ident};
ghost use Rattle.user_admin.specs.Shared.{SharedStands as UsersStand};
ghost use Rattle.xc_core.specs.Openings.{Begins};
ghost use Rattle.xc_core.specs.States.{opening_of};
ghost use Rattle.craft_session.specs.Places.{AreFresh, IsAtOpening, fresh_pass};

use craft_session::Place;
use dxc_causes::NoMemory;
use dxc_disk::Disk;
use fabric_words::Fabric;
use shelf_file::Shelf;
use std::alloc::Global;
use std::sync::Arc;
use turnstile::{Pass, Sequential, Turnstile};
use user_admin::SharedUsers;
use xc_core::State;

/// The turnstile of an element.
pub type Turns<D> = Arc<Turnstile<State<D>>>;

/// The turnstile of an element's users.
pub type UsersTurns<U> = Arc<Turnstile<SharedUsers<U>>>;

/// Takes the first of some passes.
pub fn next_pass(passes: &mut Vec<Pass>) -> Pass
    requires some { 0 < length passes.old.items }
    ensures next { (id : Ident) → (n : ℕ) → AreFresh id n passes.old.items
        → (result ≡ fresh_pass id n) × AreFresh id (n + 1) passes.new.items }
    ensures fewer { length passes.new.items + 1 ≡ length passes.old.items }
{
    passes.remove(0)
}

/// A turnstile of the state, and its passes.
pub fn turns_of<S: Sequential + Drop>(
    alloc: Global,
    state: S,
    count: u16,
) -> Result<(Arc<Turnstile<S>>, Vec<Pass>), NoMemory>
    requires some { 0 < count }
    requires stands { S.stands state [] }
    ensures turns { IfOk result
        (λ r. ((arc_value r.0).first ≡ state) × ((arc_value r.0).passes ≡ count)) }
    ensures each { IfOk result (λ r. length r.1.items ≡ count) }
    ensures fresh { IfOk result (λ r. AreFresh (arc_value r.0).id 0 r.1.items) }
{
    let (turns, passes) = Turnstile::new(alloc, state, count)?;
    let Ok(turns) = Arc::new(alloc, turns) else {
        return Err(NoMemory);
    };
    Ok((turns, passes))
}

/// The place of passes that have seen nothing.
pub fn place_of<D: Disk + Drop, U: Disk + Drop>(
    alloc: Global,
    number: u16,
    pass: Pass,
    users_pass: Pass,
    shelf: &Arc<Shelf>,
    fabric: &Arc<Fabric>,
    turns: &Turns<D>,
    users: &UsersTurns<U>,
) -> Result<Place<D, U>, NoMemory>
    requires within { number < (arc_value turns.now).passes }
    requires users_within { number < (arc_value users.now).passes }
    requires fresh { pass ≡ fresh_pass (arc_value turns.now).id number }
    requires users_fresh { users_pass ≡ fresh_pass (arc_value users.now).id number }
    requires begins { Begins D.told D.state (arc_value turns.now).first }
    requires users_stand { UsersStand U.told U.state (arc_value users.now).first [] }
    requires opening { IsAtOpening (opening_of D.state (arc_value turns.now).first)
        (arc_value shelf.now) (arc_value fabric.now) }
{
    let (Ok(shelf), Ok(fabric), Ok(turns), Ok(users)) = (
        Arc::try_clone(shelf),
        Arc::try_clone(fabric),
        Arc::try_clone(turns),
        Arc::try_clone(users),
    ) else {
        return Err(NoMemory);
    };
    Place::new(alloc, pass, users_pass, number, shelf, fabric, turns, users)
}
