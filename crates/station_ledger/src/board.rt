ghost use Rattle.std.specs.Prelude.{◌≡◌, ◌<◌, All};
ghost use Rattle.ledger_model.{specs.Quarter.IsQuarterOf, specs.Ranges.sequence_end};
ghost use Rattle.station_ledger.specs.Lines.{AreStationFlows};

use energy_flow::Flow;
use ledger_model::{ByDirection, EvseId, Figures, Listed, Periods, Quarter, TxId};
use std::marker::Model;

/// An EVSE of a station, 0 for no EVSE, with the energies of its transactions.
#[derive(Clone, Copy)]
pub struct EvseLine {
    evse: EvseId,
    energy: ByDirection<Flow>,
}

impl Model for EvseLine {
    ghost use Rattle.ledger_model.specs.Board.{Flowed};

    ghost Value = { Flowed };

    ghost view = { λ l. (l.evse, l.energy) };

    ghost inverse = { λ f. record { evse = f.0; energy = f.1 } };
}

impl EvseLine {
    /// The line of this EVSE and these energies.
    pub fn new(evse: EvseId, energy: ByDirection<Flow>) -> Self
        ensures { result ≡ (evse, energy) }
    {
        EvseLine { evse, energy }
    }

    /// The EVSE.
    pub fn evse(self) -> EvseId
        ensures { result ≡ self.0 }
    {
        self.evse
    }

    /// Its energies, in milliwatt-hours.
    pub fn energy(self) -> ByDirection<Flow>
        ensures { result ≡ self.1 }
    {
        self.energy
    }
}

/// A settlement period of a station to which a difference of two readings, or a part of one, belongs in either
/// direction, with its energies.
#[derive(Clone, Copy)]
pub struct QuarterLine {
    quarter: Quarter,
    energy: ByDirection<Flow>,
}

impl Model for QuarterLine {
    ghost use Rattle.ledger_model.specs.Board.{Flowed};

    ghost Value = { Flowed };

    ghost view = { λ l. (l.quarter, l.energy) };

    ghost inverse = { λ f. record { quarter = f.0; energy = f.1 } };
}

impl QuarterLine {
    /// The line of this period and these energies.
    pub fn new(quarter: Quarter, energy: ByDirection<Flow>) -> Self
        ensures { result ≡ (quarter, energy) }
    {
        QuarterLine { quarter, energy }
    }

    /// The settlement period.
    pub fn quarter(self) -> Quarter
        ensures { result ≡ self.0 }
    {
        self.quarter
    }

    /// Its energies, in milliwatt-hours.
    pub fn energy(self) -> ByDirection<Flow>
        ensures { result ≡ self.1 }
    {
        self.energy
    }
}

/// What a board shows of a transaction with a live event.
#[derive(Drop)]
pub struct TxLine {
    pub(crate) tx: TxId,
    pub(crate) evse: EvseId,
    pub(crate) events: u64,
    pub(crate) first: u32,
    pub(crate) last: u32,
    pub(crate) complete: bool,
    pub(crate) missing: u64,
    pub(crate) energy: ByDirection<Flow>,
    pub(crate) gaps: Listed<(u32, u32)>,
}

impl Model for TxLine {
    ghost use Rattle.ledger_model.specs.Board.{Shown};
    ghost use Rattle.station_ledger.specs.Lines.{IsShown};

    ghost Value = { Shown };

    ghost view = { λ l. record { tx = l.tx; evse = l.evse; events = l.events; first = l.first; last = l.last; complete = l.complete; missing = l.missing; energy = l.energy; gaps = l.gaps } };

    ghost invariant = { λ l. IsShown l.first l.last l.energy };
}

impl TxLine {
    /// The transaction's id.
    pub fn tx(&self) -> &TxId
        ensures { result.now ≡ self.now.tx }
    {
        &self.tx
    }

    /// Its EVSE, 0 if no live event names one.
    pub fn evse(&self) -> EvseId
        ensures { result ≡ self.now.evse }
    {
        self.evse
    }

    /// How many live events it has.
    pub fn events(&self) -> u64
        ensures { result ≡ self.now.events }
    {
        self.events
    }

    /// The lowest sequence number of a live event, 0 to 2,147,483,647.
    pub fn first(&self) -> u32
        ensures value { result ≡ self.now.first }
        ensures range { result < sequence_end }
    {
        self.first
    }

    /// The highest sequence number of a live event, 0 to 2,147,483,647.
    pub fn last(&self) -> u32
        ensures value { result ≡ self.now.last }
        ensures range { result < sequence_end }
    {
        self.last
    }

    /// Returns whether it is complete: its lowest live event is Started, its highest is Ended, no
    /// other is either, and no number is missing.
    pub fn is_complete(&self) -> bool
        ensures { result ≡ self.now.complete }
    {
        self.complete
    }

    /// How many sequence numbers are missing.
    pub fn missing(&self) -> u64
        ensures { result ≡ self.now.missing }
    {
        self.missing
    }

    /// Its energies, in milliwatt-hours.
    pub fn energy(&self) -> ByDirection<Flow>
        ensures value { result ≡ self.now.energy }
        ensures range { AreStationFlows result }
    {
        self.energy
    }

    /// The ranges of missing sequence numbers, each with its first and its last, in rising order.
    pub fn gaps(&self) -> &[(u32, u32)]
        ensures { result.now ≡ self.now.gaps }
    {
        self.gaps.as_slice()
    }

    /// The vector of those ranges.
    pub fn into_gaps(self) -> Vec<(u32, u32)>
        ensures { result.items ≡ self.gaps }
    {
        self.gaps.into_vec()
    }
}

/// The board of a station: the length of its settlement periods; its figures; its EVSEs and its periods with their
/// energies, in rising order; and its transactions with a live event, by the bytes of their ids.
#[derive(Drop)]
pub struct StationBoard {
    pub(crate) period: Periods,
    pub(crate) figures: Figures,
    pub(crate) evses: Listed<EvseLine>,
    pub(crate) quarters: Listed<QuarterLine>,
    pub(crate) transactions: Listed<TxLine>,
}

impl Model for StationBoard {
    ghost use Rattle.ledger_model.specs.Board.{Board};
    ghost use Rattle.station_ledger.specs.Lines.{AreStationLines};

    ghost Value = { Board };

    ghost view = { λ b. record { period = b.period; figures = b.figures; evses = b.evses; quarters = b.quarters; transactions = b.transactions } };

    ghost invariant = { λ b. AreStationLines b.period b.evses b.quarters };
}

impl StationBoard {
    /// Its settlement periods.
    pub fn period(&self) -> Periods
        ensures { result ≡ self.now.period }
    {
        self.period
    }

    /// The nine figures.
    pub fn figures(&self) -> Figures
        ensures { result ≡ self.now.figures }
    {
        self.figures
    }

    /// The EVSEs that have a transaction with a live event, in rising order. None has more energy
    /// than the readings of one station can show.
    pub fn evses(&self) -> &[EvseLine]
        ensures value { result.now ≡ self.now.evses }
        ensures range { All (λ line. AreStationFlows line.1) result.now }
    {
        self.evses.as_slice()
    }

    /// The settlement periods to which a difference of two readings, or a part of one, belongs, rising, each of the
    /// length of the board's periods. None has more energy than the readings of one station can show.
    pub fn quarters(&self) -> &[QuarterLine]
        ensures value { result.now ≡ self.now.quarters }
        ensures range { All (λ line. AreStationFlows line.1) result.now }
        ensures own { All (λ line. IsQuarterOf self.now.period.length line.0) result.now }
    {
        self.quarters.as_slice()
    }

    /// The transactions that have a live event, by the bytes of their ids.
    pub fn transactions(&self) -> &[TxLine]
        ensures { result.now ≡ self.now.transactions }
    {
        self.transactions.as_slice()
    }

    /// The vectors of the EVSEs, the periods and the transactions.
    pub fn into_lists(self) -> (Vec<EvseLine>, Vec<QuarterLine>, Vec<TxLine>)
        ensures evses { result.0.items ≡ self.evses }
        ensures quarters { result.1.items ≡ self.quarters }
        ensures transactions { result.2.items ≡ self.transactions }
    {
        (
            self.evses.into_vec(),
            self.quarters.into_vec(),
            self.transactions.into_vec(),
        )
    }
}
