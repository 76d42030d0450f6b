//! Laws of worlds: what a run leaves, station by station, and what a board depends on.

ghost use Rattle.std.specs.Prelude.{◌≡◌, ℕ, List, map};
ghost use Rattle.ledger_model.{specs.Periods.Periods, specs.declared.order.Order.Order, specs.Board.{board_by, figures_by}, specs.BoardLaws.with_voided, specs.Content.{Entry, live}, specs.World.{World, Happens, run}, specs.WorldLaws.{AreReordered, station_left}};

/// A run leaves each station as that station's own commands, one after the other, leave it.
#[tactic(auto, using(crate::proofs::Runs::each_by_its_own))]
pub fn each_station_by_its_own_commands()
    ensures { (w : World) (hs : List Happens) → run w hs ≡ map (station_left hs) w }
{}

/// Two runs of deliveries leave the same world if, station by station, they have the same accepted
/// deliveries in another order.
#[tactic(auto, using(crate::proofs::Runs::reordered_runs))]
pub fn orders_of_runs()
    ensures { (w : World) (one other : List Happens) → AreReordered w one other → run w one ≡ run w other }
{}

/// Contents with the same live events have boards that differ only in the number of voided events.
#[tactic(auto, using(crate::proofs::LiveEvents::live_alone))]
pub fn live_events_alone()
    ensures { (order : Order) (period : Periods) (es fs : List Entry) → live es ≡ live fs → board_by order period es ≡ with_voided (figures_by order es).voided (board_by order period fs) }
{}
