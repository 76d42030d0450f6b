//! Laws of the two orders of readings: by sequence, and by moment.
ghost use Rattle.std.specs.Prelude.{◌≡◌, ℕ, Bool, ◌+◌, ◌≤◌, ◌==◌, not, List, [], ◌∷◌, filter, map, sum_by};
ghost use Rattle.ledger_model.{specs.Periods.Periods, specs.declared.order.Order.Order, specs.declared.order.Order.TheVariants.{Sequence, Moment}, specs.declared.reading.Direction.Direction, specs.declared.reading.Direction.TheVariants.Import, specs.Board.board_by, specs.BoardExamples.{end_voided, read_again, readings_again_at_end, rise, ten, ties_and_clocks, took}, specs.Content.Entry, specs.Energy.{energy_by, readings_by, readings_of}, specs.Event.MeterReading, specs.InTime.{in_order, AreInTime}, specs.Key.KeyName, specs.OrderLaws.{HaveSameEnergies, IsOneMoreInPlace, OtherPairsStay, ReadingsMove}, specs.Settling.default_periods, specs.ReadingOrder.{numbered_by, runs_of, taken_when, IsOneReadingMore, IsRepeat}};

/// The periods and energies of short transactions, by moment and by sequence: one with an end that
/// lists its readings again, the same with an event voided, and one with two readings of one moment and
/// a clock that goes back.
pub fn order_examples()
    ensures read_again_at_end { (board_by Moment default_periods readings_again_at_end).quarters ≡ (ten, took 200_000) ∷ (ten + 2, took 400_000) ∷ (ten + 3, took 100_000) ∷ [] }
    ensures read_again { (board_by Moment default_periods read_again).quarters ≡ (ten, took 200_000) ∷ (ten + 2, took 400_000) ∷ (ten + 3, took 100_000) ∷ [] }
    ensures end_voided { energy_by Moment Import end_voided ≡ rise 600_000 }
    ensures ties { energy_by Moment Import ties_and_clocks ≡ rise 300_000 }
    ensures ties_by_sequence { energy_by Sequence Import ties_and_clocks ≡ record { up = 300_000; down = 200_000 } }
{}

/// By moment, no reading is earlier than the one in front of it, and readings of one moment are in
/// the same order as in the given list; no other list has both properties. It has each reading as
/// often as the given list. A list in which no reading is earlier than the one in front of it stays
/// as it is. To sort the readings that pass a test gives those that pass it of the sorted readings.
pub fn readings_by_moment()
    ensures rises { (rs : List MeterReading) → AreInTime taken_when (in_order Moment taken_when rs) }
    ensures stable { (moment : ℕ) (rs : List MeterReading) → filter (λ r. r.moment == moment) (in_order Moment taken_when rs) ≡ filter (λ r. r.moment == moment) rs }
    ensures only { (xs rs : List MeterReading) → AreInTime taken_when xs
        → ((moment : ℕ) → filter (λ r. r.moment == moment) xs ≡ filter (λ r. r.moment == moment) rs)
        → xs ≡ in_order Moment taken_when rs }
    ensures all { (f : MeterReading → ℕ) (rs : List MeterReading) → sum_by f (in_order Moment taken_when rs) ≡ sum_by f rs }
    ensures same { (rs : List MeterReading) → AreInTime taken_when rs → in_order Moment taken_when rs ≡ rs }
    ensures passed { (p : MeterReading → Bool) (rs : List MeterReading) → in_order Moment taken_when (filter p rs) ≡ filter p (in_order Moment taken_when rs) }
{}

/// If no reading of a transaction is earlier than the one in front of it by sequence, the two orders
/// give equal boards.
#[tactic(auto, using(crate::proofs::LiveEvents::agreeing_boards))]
pub fn orders_agree()
    ensures { (period : Periods) (es : List Entry) → ((d : Direction) (tx : List ℕ) → AreInTime taken_when (readings_of d tx es)) → board_by Moment period es ≡ board_by Sequence period es }
{}

/// By moment: if a transaction has readings of a direction at a moment, and all of these have one level,
/// then one more reading of that moment and level in a live event of the transaction changes no energy:
/// not that of a transaction, of an EVSE, of a period or of the station. A board may come to show a
/// period of zero energy.
pub fn repeats_change_no_sum()
    ensures { (d : Direction) (es more : List Entry) (key : KeyName) (r : MeterReading) → IsOneReadingMore es more key r
        → IsRepeat r (readings_by Moment r.direction key.tx es) → HaveSameEnergies d es more }
{}

/// In either order, the readings of a transaction without one of its events are its readings with that
/// event's left out. When the event comes, the pairs across its runs go, and the pairs come that have
/// one of its readings; for r readings in g runs, at most r + 2g pairs come or go. By sequence its
/// readings are in one run.
pub fn readings_with_one_event_more()
    ensures readings { (order : Order) (d : Direction) (tx : List ℕ) (es : List Entry) → map (λ n. n.1) (numbered_by order d tx es) ≡ readings_by order d tx es }
    ensures moved { (order : Order) (d : Direction) (es more : List Entry) (e : Entry) → IsOneMoreInPlace es more e → ReadingsMove order d es more e }
    ensures others { OtherPairsStay }
    ensures one_run { (d : Direction) (es more : List Entry) (e : Entry) → IsOneMoreInPlace es more e → runs_of Sequence d e.0 more ≤ 1 }
{}
