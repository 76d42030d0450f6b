//! Laws of worlds: of the stations of a plan, and of one transaction of one of them.
ghost use Rattle.std.{specs.Prelude.{◌≡◌, ℕ, false, List, ◌∷◌, ◌++◌, All}, specs.Str.bytes_eq};
ghost use Rattle.ledger_model.{specs.Content.empty_content, specs.World.{Happens, Station, World, run}, specs.WorldLaws.station_left};
ghost use Rattle.transaction_laws.specs.Stations.{happens_at, station_alone};

/// In a run of a world a transaction of a station depends on its own commands alone. The run of just its
/// commands leaves the station, if it had no event, with what the whole run leaves of the transaction, and
/// leaves every other station as it was: so it does in a world where no other station has the station's name.
pub fn transactions_of_stations()
    ensures own { (tx : List ℕ) (hs : List Happens) (s : Station) → s.content ≡ empty_content → station_left (happens_at tx s hs) s ≡ station_alone tx hs s }
    ensures world { (tx : List ℕ) (hs : List Happens) (front back : World) (s : Station) → s.content ≡ empty_content
        → All (λ other. bytes_eq s.name other.name ≡ false) front → All (λ other. bytes_eq s.name other.name ≡ false) back
        → run (front ++ s ∷ back) (happens_at tx s hs) ≡ front ++ station_alone tx hs s ∷ back }
    ensures others { (tx : List ℕ) (hs : List Happens) (s other : Station) → bytes_eq s.name other.name ≡ false → station_left (happens_at tx s hs) other ≡ other }
{}
