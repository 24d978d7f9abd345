//! All that the program is lent, as one word of clauses: `⟦<(O, K, C, G, P) as World>⟧`.
use craft_session::Timestamps;
use dxc_leaving::LetGo;
use dxc_outside::{Clock, Gate, Link, Opener, Spawner};

/// Has no function. Its one member holds those of an opener and of what it hands out, and of a gate and a spawner, so that a clause passes them
/// whole.
pub trait Ground {
    ghost use Rattle.craft_server.specs.Worlds.{Grounds};

    ghost ground: { Grounds };
}

impl<O: Opener + LetGo, G: Gate, P: Spawner> Ground for (O, G, P)
where
    O::Clock: Timestamps,
{
    ghost use Rattle.dxc_element.specs.Lenders.{lender};
    ghost use Rattle.craft_server.specs.Entrances.{entrance};
    ghost use Rattle.craft_server.specs.Worlds.{grounds};

    ghost ground = { grounds (lender O.Opener O.Journal.Disk O.Peer.Link O.gone) O.Lines.Lines
        (entrance O.Listener.Listener O.Listener.Link.Link O.Clock.Timestamps O.Gate.Gate)
        G.Gate P.Spawner };
}

/// Likewise of these, and of a terminal and a clock.
pub trait World {
    ghost use Rattle.craft_server.specs.Worlds.{Worlds};

    ghost world: { Worlds };
}

impl<O: Opener + LetGo, K: Link, C: Clock, G: Gate, P: Spawner> World for (O, K, C, G, P)
where
    O::Clock: Timestamps,
{
    ghost use Rattle.dxc_element.specs.Lenders.{lender};
    ghost use Rattle.craft_server.specs.Entrances.{entrance};
    ghost use Rattle.craft_server.specs.Worlds.{grounds, worlds};

    ghost world = { worlds
        (grounds (lender O.Opener O.Journal.Disk O.Peer.Link O.gone) O.Lines.Lines
        (entrance O.Listener.Listener O.Listener.Link.Link O.Clock.Timestamps O.Gate.Gate)
        G.Gate P.Spawner) K.Link C.Clock };
}

/// Likewise of what `script` is lent: an opener, a terminal, a clock and a gate.
pub trait Station {
    ghost use Rattle.craft_server.specs.Worlds.{Stations};

    ghost station: { Stations };
}

impl<O: Opener + LetGo, K: Link, C: Clock, G: Gate> Station for (O, K, C, G) {
    ghost use Rattle.dxc_element.specs.Lenders.{lender};
    ghost use Rattle.craft_server.specs.Worlds.{stations};

    ghost station = { stations (lender O.Opener O.Journal.Disk O.Peer.Link O.gone) K.Link
        C.Clock G.Gate };
}
