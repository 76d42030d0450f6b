//! Laws of one more live event: what a delivery, a restoration or a void changes, and what stays the
//! same.
ghost use Rattle.std.{specs.Prelude.{◌≡◌, ℕ, ◌+◌, ◌≤◌, true, false, List, ◌∷◌, ◌++◌, None, filter, length, nat_lt}, specs.FinMap.find, specs.Str.bytes_eq};
ghost use Rattle.ledger_model.{specs.declared.command.Command.TheVariants.{Deliver, Void, Restore, Erase}, specs.declared.reading.Direction.Direction, specs.Content.{Entry, Stored, live, live_of}, specs.DeltaLaws.{count_voided, ArePutBetween, CountsMove, DeliveryMakesOneMore, EnergiesMove, Holds, PairsMove, RestorationMakesOneMore, VoidMakesOneLess}, specs.Deltas.{across, before_key, behind_key, came_by, gone_by, most_for, own_events, IsOneMore}, specs.Energy.{energy, pairs}, specs.Entries.{entries_after, IsRising}, specs.Event.{EventContent, MeterReading, toward}, specs.Gaps.missing, specs.Key.{KeyName, key_cmp}};

/// How the pairs of a list of readings change when readings are put in between: the pair across
/// their place goes, and the pairs come that they make with one another and with the readings on
/// either side. The sum of each measure of a pair changes in the same way. At most one pair goes,
/// and at most one pair more comes than there are new readings.
pub fn pairs_of_readings_put_in()
    ensures { (front mid back : List MeterReading) → ArePutBetween front mid back }
{}

/// The delivery of a new key and a restoration add one live event, in the place of its key; a void
/// takes one away. An erasure leaves the live events as they are. Of the events of a key's transaction,
/// those with smaller numbers are in front of the key and those with greater numbers behind it.
pub fn one_event_more_or_less()
    ensures delivered { DeliveryMakesOneMore }
    ensures restored { RestorationMakesOneMore }
    ensures voided { VoidMakesOneLess }
    ensures erased { (es : List Entry) (key : KeyName) (s : Stored) → Holds es key s → s.voided ≡ true → live (entries_after es (Erase key)) ≡ live es }
    ensures in_front { (key : KeyName) (es : List Entry) → own_events key.tx (before_key key es) ≡ filter (λ e. nat_lt e.0.seq key.seq) (live_of key.tx es) }
    ensures behind { (key : KeyName) (es : List Entry) → own_events key.tx (behind_key key es) ≡ filter (λ e. nat_lt key.seq e.0.seq) (live_of key.tx es) }
{}

/// One more live event changes the pairs of its own transaction only, and in each direction only at
/// its place. The station's pairs with the event, and those without it, are, in some order, the pairs
/// that are kept and the pairs that come or go. In a direction without a reading of the event no pair
/// comes or goes; with r readings, r above 0, at most r + 2 do.
pub fn pairs_with_one_event_more()
    ensures moved { (d : Direction) (es more front : List Entry) (e : Entry) (back : List Entry) → IsOneMore es more front e back → PairsMove d es more front e back }
    ensures events_without { (es more front : List Entry) (e : Entry) (back : List Entry) → IsOneMore es more front e back → live_of e.0.tx es ≡ own_events e.0.tx front ++ own_events e.0.tx back }
    ensures events_with { (es more front : List Entry) (e : Entry) (back : List Entry) → IsOneMore es more front e back → live_of e.0.tx more ≡ own_events e.0.tx front ++ e ∷ own_events e.0.tx back }
    ensures other_events { (es more front : List Entry) (e : Entry) (back : List Entry) (tx : List ℕ) → IsOneMore es more front e back → bytes_eq tx e.0.tx ≡ false → live_of tx more ≡ live_of tx es }
    ensures few_moved { (d : Direction) (e : Entry) (front back : List Entry) → length (gone_by d front e back) + length (came_by d front e back) ≤ most_for (length (toward d e.1.event.readings)) }
{}

/// With one more live event, the energies in a direction of the station, of the event's transaction and of
/// each period lose the pair that goes and gain the pairs that come; so does the number of a period's pairs.
/// The transaction's old energy is taken from the EVSE where it was, and its new energy is added to the EVSE
/// where it is.
pub fn energies_with_one_event_more()
    ensures { (d : Direction) (es more front : List Entry) (e : Entry) (back : List Entry) → IsOneMore es more front e back → EnergiesMove d es more front e back }
{}

/// With one more live event, the number of live events rises by one, and the number of transactions
/// by one if the event's transaction had no live event. How many transactions are complete, how
/// many numbers are missing and how many transactions an EVSE has change only by that transaction.
/// The number of voided events changes as the command says.
pub fn figures_with_one_event_more()
    ensures counts { (es more front : List Entry) (e : Entry) (back : List Entry) → IsOneMore es more front e back → CountsMove e.0.tx es more }
    ensures voided_by_delivery { (es : List Entry) (key : KeyName) (event : EventContent) → IsRising es → find key_cmp key es ≡ None
        → count_voided (entries_after es (Deliver key event)) ≡ count_voided es }
    ensures voided_by_restoration { (es : List Entry) (key : KeyName) (s : Stored) → Holds es key s → s.voided ≡ true → count_voided (entries_after es (Restore key)) + 1 ≡ count_voided es }
    ensures voided_by_void { (es : List Entry) (key : KeyName) (s : Stored) → Holds es key s → s.voided ≡ false → count_voided (entries_after es (Void key)) ≡ count_voided es + 1 }
    ensures voided_by_erasure { (es : List Entry) (key : KeyName) (s : Stored) → Holds es key s → s.voided ≡ true → count_voided (entries_after es (Erase key)) + 1 ≡ count_voided es }
{}
