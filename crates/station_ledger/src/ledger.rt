ghost use Rattle.std.specs.Prelude.{◌≡◌, ◌≢◌, ◌+◌, ◌<◌, ◌≤◌, ◌^◌, IfOk};
ghost use Rattle.std.specs.FinMap as finite;
ghost use Rattle.ledger_model.{specs.Ranges.most_event_readings, specs.Content.{empty_content, entries}, specs.declared.reading.Direction.TheVariants.{Import, Export}, specs.Energy.energy_by, specs.Evse.energy_at_by, specs.Figures.AreWithin, specs.Board.{board_by, figures_by}, specs.declared.settle.Settle.Settle, specs.Step.{Reached, answer, answer_to_deliver, answer_to_void, answer_to_voided, accepted_within_limit, step}};
ghost use Rattle.station_ledger.{specs.Judged.{IsApplied, IsJudged}, specs.Listing.listing_by, specs.Looks.{looks_within, most_looks}, specs.New.answer_to_new, specs.Quarters.IsWork, specs.Spent.{IsSpent, most_spent}, specs.Used.used_limits};

use crate::board::StationBoard;
use crate::judgement::Judgement;
use crate::lines::board_of;
use crate::listing::{TxListing, listing_of};
use crate::moves::carry_out;
use crate::sums::Sums;
use crate::used::UsedLimits;
use energy_flow::{Flow, Work};
use event_chain::{Chains, Found, Room};
use ledger_model::{
    Answer, Command, Event, EvseId, Figures, Key, Limits, Order, Period, Periods, Refusal, Settle,
    TxId,
};
use std::alloc::{AllocError, Global};
use std::marker::Model;

/// One station's ledger: its transaction events by their keys, and the energy between their readings
/// (OCPP 2.0.1 Part 2, block E and J02; the rules of commands are this product's profile).
#[derive(Drop)]
pub struct StationLedger {
    limits: Limits,
    chains: Chains,
    sums: Sums,
    changes: u64,
}

impl Model for StationLedger {
    ghost use Rattle.station_ledger.{specs.Ledger.{Ledger, ledger_code}, specs.Kept.{content_in, IsKept}, specs.Sums.order_in};

    ghost Value = { Ledger };

    ghost coded = { ledger_code };

    ghost view = { λ l. record { limits = l.limits; period = l.sums.period; order = order_in l.sums; content = content_in l.chains l.changes } };

    ghost invariant = { λ l. IsKept l.limits l.chains l.changes l.sums };
}

impl StationLedger {
    /// A ledger without events, for these limits. Its board has settlement periods of this length, takes the
    /// readings of a transaction in this order and counts differences by this rule. Only this call,
    /// [`StationLedger::board`] and [`StationLedger::listing`] can run out of memory.
    pub fn open(
        alloc: Global,
        limits: Limits,
        period: Period,
        order: Order,
        settle: Settle,
    ) -> Result<Self, AllocError>
        ensures limits { IfOk result (λ l. l.limits ≡ limits) }
        ensures period { IfOk result (λ l. l.period ≡ record { length = period; rule = settle }) }
        ensures order { IfOk result (λ l. l.order ≡ order) }
        ensures empty { IfOk result (λ l. l.content ≡ empty_content) }
        ensures reached { IfOk result (λ l. Reached l.limits l.content.changes l.content) }
    {
        let periods = Periods::new(period, settle);
        Ok(StationLedger {
            limits,
            chains: Chains::open(alloc, &limits)?,
            sums: Sums::open(alloc, &limits, periods, order)?,
            changes: 0,
        })
    }

    /// What [`StationLedger::apply`] would answer to the command now; nothing changes.
    pub fn judge(&self, command: &Command) -> Answer
        ensures { result ≡ answer self.now.limits self.now.content command.now }
    {
        self.judgement(command).answer
    }

    /// The answer of [`StationLedger::judge`] with a hint, for [`StationLedger::apply_judged`];
    /// nothing changes.
    pub fn judgement(&self, command: &Command) -> Judgement
        ensures { IsJudged self.now.limits self.now.content command.now result.answer }
    {
        let key = command.key();
        match command {
            Command::Deliver(_, event) => self.judge_delivery(key, event),
            Command::Void(_) => Judgement::without_place(self.judge_void(key)),
            Command::Restore(_) | Command::Erase(_) => {
                Judgement::without_place(self.judge_voided(key))
            }
        }
    }

    // The answer to an event under this key.
    fn judge_delivery(&self, key: &Key, event: &Event) -> Judgement
        ensures { result.answer ≡ answer_to_deliver self.now.limits self.now.content key.now event.now (finite.get self.now.content.events key.now) }
    {
        let (found, place) = self.chains.look(key);
        match found {
            Some(stored) => {
                if stored.same_as(event) {
                    Judgement {
                        answer: Answer::Repeat,
                        place,
                    }
                } else {
                    Judgement {
                        answer: Answer::Refused(Refusal::ConflictingEvent),
                        place,
                    }
                }
            }
            None => Judgement {
                answer: self.judge_new(key.tx(), event.readings().len()),
                place,
            },
        }
    }

    // The answer to an event of this transaction under a new key, with this many readings.
    fn judge_new(&self, tx: &TxId, readings: usize) -> Answer
        requires { readings ≤ most_event_readings }
        ensures { result ≡ answer_to_new self.now.limits self.now.content tx.now readings }
    {
        match self.chains.room_for(tx, readings) {
            Room::NoTransaction => Answer::Refused(Refusal::TooManyTransactions),
            Room::NoEvent => Answer::Refused(Refusal::EventsFull),
            Room::NoReading => Answer::Refused(Refusal::ReadingsFull),
            Room::Fits => self.accepted_within_limit(),
        }
    }

    // The answer to a void of this key.
    fn judge_void(&self, key: &Key) -> Answer
        ensures { result ≡ answer_to_void self.now.limits self.now.content (finite.get self.now.content.events key.now) }
    {
        match self.chains.find(key) {
            None => Answer::Refused(Refusal::NoSuchEvent),
            Some(Found::Voided) => Answer::Refused(Refusal::AlreadyVoided),
            Some(Found::Live) => self.accepted_within_limit(),
        }
    }

    // The answer to a command that only a voided event allows.
    fn judge_voided(&self, key: &Key) -> Answer
        ensures { result ≡ answer_to_voided self.now.limits self.now.content (finite.get self.now.content.events key.now) }
    {
        match self.chains.find(key) {
            None => Answer::Refused(Refusal::NoSuchEvent),
            Some(Found::Voided) => self.accepted_within_limit(),
            Some(Found::Live) => Answer::Refused(Refusal::NotVoided),
        }
    }

    // The answer to a command that all other rules allow.
    fn accepted_within_limit(&self) -> Answer
        ensures { result ≡ accepted_within_limit self.now.limits self.now.content }
    {
        if self.limits.changes() <= self.changes {
            Answer::Refused(Refusal::ChangesExhausted)
        } else {
            Answer::Accepted(self.changes + 1)
        }
    }

    /// Takes the command and returns the answer. An accepted command changes the content; any other
    /// answer changes nothing. `work` counts each difference that is evaluated.
    pub fn apply(&mut self, command: Command, work: &mut Work) -> Answer
        ensures answer { result ≡ answer self.old.limits self.old.content command }
        ensures content { self.new ≡ record self.old { content = (step self.old.limits self.old.content command).0 } }
        ensures work { IsSpent result work.old work.new }
        ensures bound { work.new ≤ work.old + most_spent self.old.order self.old.content.events command }
        ensures reached { Reached self.new.limits self.new.content.changes self.new.content }
        ensures fits { self.new.content.changes < 2 ^ 64 }
    {
        let judgement = self.judgement(&command);
        self.apply_judged(command, judgement, work)
    }

    /// Takes a command that was judged already, as [`StationLedger::apply`] does.
    ///
    /// Condition: this is the judgement of the command by what the ledger holds now
    /// ([`StationLedger::judgement`] gives it).
    pub fn apply_judged(
        &mut self,
        command: Command,
        judgement: Judgement,
        work: &mut Work,
    ) -> Answer
        requires { IsJudged self.old.limits self.old.content command judgement.answer }
        ensures { IsApplied self.old command result self.new work.old work.new }
    {
        let Judgement { answer, place } = judgement;
        match answer {
            Answer::Accepted(changes) => {
                carry_out(&mut self.chains, &mut self.sums, place, &command, work);
                self.changes = changes;
                Answer::Accepted(changes)
            }
            Answer::Repeat => Answer::Repeat,
            Answer::Refused(why) => Answer::Refused(why),
        }
    }

    /// The rises and falls of the import register over all transactions, in milliwatt-hours. No
    /// reading is compared.
    pub fn energy(&self) -> Flow
        ensures { result ≡ energy_by self.now.order Import (entries self.now.content) }
    {
        self.sums.energies.import
    }

    /// The rises and falls of the export register over all transactions, in milliwatt-hours. No
    /// reading is compared.
    pub fn export(&self) -> Flow
        ensures { result ≡ energy_by self.now.order Export (entries self.now.content) }
    {
        self.sums.energies.export
    }

    /// The figures: live and voided events; transactions with a live event, how many of these are
    /// complete and how many numbers they miss; and the energies: imported, and exported.
    pub fn figures(&self) -> Figures
        ensures value { result ≡ figures_by self.now.order (entries self.now.content) }
        ensures within { AreWithin self.now.limits result }
    {
        Figures {
            up: self.sums.energies.import.up(),
            down: self.sums.energies.import.down(),
            export_up: self.sums.energies.export.up(),
            export_down: self.sums.energies.export.down(),
            ..self.sums.figures
        }
    }

    /// The rises and falls of the import register over the transactions of an EVSE, in
    /// milliwatt-hours. EVSE 0 has the transactions without a live event that names one.
    pub fn evse(&self, evse: EvseId) -> Flow
        ensures { result ≡ energy_at_by self.now.order Import evse (entries self.now.content) }
    {
        self.sums.evses[usize::from(evse.number())].energy.import
    }

    /// The rises and falls of the export register over the transactions of an EVSE, in
    /// milliwatt-hours.
    pub fn evse_export(&self, evse: EvseId) -> Flow
        ensures { result ≡ energy_at_by self.now.order Export evse (entries self.now.content) }
    {
        self.sums.evses[usize::from(evse.number())].energy.export
    }

    /// The events of a transaction, live and voided; its live readings, in the order of the ledger, each with the
    /// number of its event; and its energies. A transaction without an event has none. The error says that the
    /// allocator refused memory.
    pub fn listing(&self, alloc: Global, tx: &TxId) -> Result<TxListing, AllocError>
        ensures { IfOk result (λ l. l ≡ listing_by self.now.order self.now.period tx.now (entries self.now.content)) }
    {
        listing_of(alloc, &self.chains, &self.sums, tx)
    }

    /// The board: the figures; the EVSEs and the periods with their energies; and the transactions
    /// with a live event, with their gaps. It takes memory, as [`StationLedger::listing`] does; no other call does.
    /// `work` counts each look at two levels, also before an error: at most one for each pair of readings if the site
    /// settles evenly, else none.
    pub fn board(&self, alloc: Global, work: &mut Work) -> Result<StationBoard, AllocError>
        ensures looks { IsWork (most_looks self.now.period.rule self.now.order (entries self.now.content)) work.old work.new }
        ensures bound { IsWork (looks_within self.now.period.rule self.now.limits.readings) work.old work.new }
        ensures still { self.now.period.rule ≢ Settle.Even → work.new ≡ work.old }
        ensures board { IfOk result (λ b. b ≡ board_by self.now.order self.now.period (entries self.now.content)) }
        ensures within { IfOk result (λ b. AreWithin self.now.limits b.figures) }
    {
        board_of(alloc, &self.chains, &self.sums, self.figures(), work)
    }

    /// How much of each limit it uses.
    pub fn used_limits(&self) -> UsedLimits
        ensures { result ≡ used_limits self.now.content }
    {
        UsedLimits {
            transactions: self.chains.stored_transactions(),
            events: self.chains.stored_events(),
            readings: self.chains.stored_readings(),
            changes: self.changes,
        }
    }

    /// How many commands were accepted so far, at most 2^63.
    pub fn changes(&self) -> u64
        ensures value { result ≡ self.now.content.changes }
        ensures reached { Reached self.now.limits result self.now.content }
    {
        self.changes
    }

    /// The limits that the ledger was opened with.
    pub fn limits(&self) -> &Limits
        ensures { result.now ≡ self.now.limits }
    {
        &self.limits
    }

    /// The settlement periods that the ledger was opened with.
    pub fn period(&self) -> Periods
        ensures { result ≡ self.now.period }
    {
        self.sums.period
    }

    /// The order in which it takes the readings of a transaction: the one that the ledger was opened with.
    pub fn order(&self) -> Order
        ensures { result ≡ self.now.order }
    {
        self.sums.order()
    }
}
