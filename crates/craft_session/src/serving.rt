//! The sessions of a place: over a link, for a user that is logged in from the beginning, and for a caller.
ghost use Rattle.std.specs.Prelude.{◌≡◌, ◌≢◌};
ghost use Rattle.craft_session.specs.Noted.{NotedFor};
ghost use Rattle.craft_session.specs.Cancelling.{IsHeeding};
ghost use Rattle.craft_session.specs.Served.{Served, ServedFor};
ghost use Rattle.craft_session.specs.Idling.{IsAwake};
ghost use Rattle.craft_session.specs.Waiting.{IsLetGo};

use crate::end::SessionEnd;
use crate::lent::Lent;
use crate::patience::Patience;
use crate::place::Place;
use crate::session::serve;
use crate::timestamps::Timestamps;
use dxc_disk::Disk;
use dxc_model::SessionUser;
use dxc_notes::{Notes, Silence};
use dxc_outside::{Gate, Link};
use std::sync::Wait;

/// Serves the link, until it ends or fails, the gate stops, or 2^32 reads were made. It waits for its turn at the state, for the Provisioner, and for
/// frames that stand in the way of a circuit's move. It takes no memory. Nobody is logged in where it begins.
pub fn serve_session<K: Link, C: Timestamps, G: Gate, D: Disk + Drop, U: Disk + Drop, R: Wait>(
    place: &mut Place<D, U>,
    link: &mut K,
    clock: &mut C,
    gate: &mut G,
    rt: &R,
) -> SessionEnd
    ensures served { Served ⟦<(K, C, G, D) as Lent>⟧ (place.old, link.old, clock.old, gate.old)
        (place.new, link.new, clock.new, gate.new) result }
    ensures attended { result ≢ SessionEnd.Unattended }
    ensures alone { result ≢ SessionEnd.Cancelled }
    ensures endless { result ≢ SessionEnd.Idle }
{
    serve_session_of(place, SessionUser::Nobody, link, clock, gate, rt)
}

/// Serves the link as `serve_session` does, in a session that begins with this user logged in.
pub fn serve_session_of<K: Link, C: Timestamps, G: Gate, D: Disk + Drop, U: Disk + Drop, R: Wait>(
    place: &mut Place<D, U>,
    first: SessionUser,
    link: &mut K,
    clock: &mut C,
    gate: &mut G,
    rt: &R,
) -> SessionEnd
    ensures served { ServedFor ⟦<(K, C, G, D) as Lent>⟧ first
        (place.old, link.old, clock.old, gate.old)
        (place.new, link.new, clock.new, gate.new) result }
    ensures attended { result ≢ SessionEnd.Unattended }
    ensures alone { result ≢ SessionEnd.Cancelled }
    ensures endless { result ≢ SessionEnd.Idle }
{
    serve_at(
        place,
        first,
        Patience::Endless,
        link,
        clock,
        gate,
        &mut Silence,
        rt,
    )
}

/// Serves the link as `serve_session` does, and lets it go once nobody has been logged in for a minute of silence: after 300 reads in which nothing
/// came, or more where some brought bytes, of which 16 count as one of these. It also lets go who is logged in and silent for longer than the shelf
/// allows one of the class. Its log-ins, log-outs, changes and restarts are noted, and what came of each.
pub fn serve_caller<
    K: Link,
    C: Timestamps,
    G: Gate,
    N: Notes,
    D: Disk + Drop,
    U: Disk + Drop,
    R: Wait,
>(
    place: &mut Place<D, U>,
    link: &mut K,
    clock: &mut C,
    gate: &mut G,
    notes: &mut N,
    rt: &R,
) -> SessionEnd
    ensures served { Served ⟦<(K, C, G, D) as Lent>⟧ (place.old, link.old, clock.old, gate.old)
        (place.new, link.new, clock.new, gate.new) result }
    ensures let_go { IsLetGo ⟦<(K, C, G, D) as Lent>⟧ SessionUser.Nobody
        (place.old, link.old, clock.old, gate.old) (K.state link.new) }
    ensures heeds { IsHeeding ⟦<(K, C, G, D) as Lent>⟧ SessionUser.Nobody
        (place.old, link.old, clock.old, gate.old) (K.state link.new) }
    ensures awake { IsAwake ⟦<(K, C, G, D) as Lent>⟧ SessionUser.Nobody
        (place.old, link.old, clock.old, gate.old) (K.state link.new) }
    ensures noted { NotedFor ⟦<(K, C, G, D) as Lent>⟧ SessionUser.Nobody
        (place.old, link.old, clock.old, gate.old)
        (place.new, link.new, clock.new, gate.new) (N.noted notes.old notes.new) }
{
    serve_at(
        place,
        SessionUser::Nobody,
        Patience::Limited,
        link,
        clock,
        gate,
        notes,
        rt,
    )
}

// Serves the link in a session of the place that begins with this user, and is as patient.
fn serve_at<K: Link, C: Timestamps, G: Gate, N: Notes, D: Disk + Drop, U: Disk + Drop, R: Wait>(
    place: &mut Place<D, U>,
    first: SessionUser,
    patience: Patience,
    link: &mut K,
    clock: &mut C,
    gate: &mut G,
    notes: &mut N,
    rt: &R,
) -> SessionEnd
    requires vacant { patience ≡ Patience.Limited → first ≡ SessionUser.Nobody }
    ensures served { ServedFor ⟦<(K, C, G, D) as Lent>⟧ first
        (place.old, link.old, clock.old, gate.old)
        (place.new, link.new, clock.new, gate.new) result }
    ensures attended { patience ≡ Patience.Endless → result ≢ SessionEnd.Unattended }
    ensures alone { patience ≡ Patience.Endless → result ≢ SessionEnd.Cancelled }
    ensures let_go { patience ≡ Patience.Limited → IsLetGo ⟦<(K, C, G, D) as Lent>⟧ first
        (place.old, link.old, clock.old, gate.old) (K.state link.new) }
    ensures heeds { patience ≡ Patience.Limited → IsHeeding ⟦<(K, C, G, D) as Lent>⟧ first
        (place.old, link.old, clock.old, gate.old) (K.state link.new) }
    ensures endless { patience ≡ Patience.Endless → result ≢ SessionEnd.Idle }
    ensures awake { patience ≡ Patience.Limited → IsAwake ⟦<(K, C, G, D) as Lent>⟧ first
        (place.old, link.old, clock.old, gate.old) (K.state link.new) }
    ensures noted { NotedFor ⟦<(K, C, G, D) as Lent>⟧ first
        (place.old, link.old, clock.old, gate.old)
        (place.new, link.new, clock.new, gate.new) (N.noted notes.old notes.new) }
{
    place.desk.begin(first);
    let end = serve(
        &mut place.desk,
        &mut place.piece,
        patience,
        link,
        clock,
        gate,
        notes,
        rt,
    );
    // Their clauses tell whose entries the seats have seen.
    place.desk.seat.seen();
    place.desk.users.seat.seen();
    end
}
