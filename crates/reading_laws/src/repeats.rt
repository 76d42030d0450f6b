//! Laws of events that list readings again, by moment.
ghost use Rattle.std.specs.Prelude.{◌≡◌, ℕ, List};
ghost use Rattle.ledger_model.{specs.declared.command.Command.TheVariants.Deliver, specs.declared.reading.Direction.Direction, specs.BoardExamples.late_event, specs.Content.Entry, specs.Entries.entries_after, specs.Event.{EventContent, MeterReading}, specs.Evse.evse_of, specs.Key.KeyName, specs.OrderLaws.HaveSameEnergies};
ghost use Rattle.reading_laws.{specs.RepeatExamples.{end_with_repeats, ended_with_repeats}, specs.Repeats.{AreReadingsMore, AreRepeats, BringsRepeats, HaveSameSums, IsOneMoreOfRepeats}};

/// An event that lists readings of its transaction again changes no energy by moment: not a
/// transaction's, a period's or the station's, imported or exported. It may list any number of
/// readings in any order. Each must have the moment of some live readings of its direction, and all of
/// these must show its level. The same holds when such an event is delivered under a new key. An EVSE
/// keeps its energy if the transaction keeps its EVSE, and if a live event gets such readings. A board
/// may come to show a period of zero energy. The last clause has an example: an end that lists two
/// readings again.
pub fn repeated_readings_change_no_sum()
    ensures one_event_more { (d : Direction) (es more : List Entry) (e : Entry) → IsOneMoreOfRepeats es more e → HaveSameSums d es more }
    ensures delivered { (d : Direction) (es : List Entry) (key : KeyName) (event : EventContent) → BringsRepeats es key event → HaveSameSums d es (entries_after es (Deliver key event)) }
    ensures at_evses { (d : Direction) (es more : List Entry) (e : Entry) → IsOneMoreOfRepeats es more e → evse_of e.0.tx more ≡ evse_of e.0.tx es → HaveSameEnergies d es more }
    ensures readings_more { (d : Direction) (es more : List Entry) (key : KeyName) (rs : List MeterReading) → AreReadingsMore es more key rs → AreRepeats key.tx es rs → HaveSameEnergies d es more }
    ensures example { IsOneMoreOfRepeats late_event ended_with_repeats end_with_repeats }
{}
