//! What holds of every state that a list of allowed steps reaches.
ghost use Rattle.fabric_core.specs.Hitless.{IsAlwaysHitless};
ghost use Rattle.fabric_core.specs.Parts.{Always, LegsAreLaid, PhaseNamesTheRest, ArePathsApart, HoldsAreLegs, HoldsAreNoted, CarriedAsLogged};

/// Every state that any list of allowed events reaches from the start is hitless: each established leg has a whole path, what each worker
/// carried is of the switch whose number it read, and no word that it followed was none.
pub fn hitless()
    ensures { IsAlwaysHitless }
{}

/// The rule that each event keeps, in its parts.
pub fn rule()
    ensures legs { Always LegsAreLaid }
    ensures phase { Always PhaseNamesTheRest }
    ensures apart { Always ArePathsApart }
    ensures holds { Always HoldsAreLegs }
    ensures noted { Always HoldsAreNoted }
    ensures carried { Always CarriedAsLogged }
{}
