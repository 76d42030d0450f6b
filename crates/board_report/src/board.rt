ghost use Rattle.std.specs.Prelude.{◌≡◌, IfOk};
ghost use Rattle.ledger_model.specs.Board.{site_board as site_board_of};
ghost use Rattle.board_report.specs.Sums.{station_quarters, AreOfPeriod, AreQuartersOf, QuartersFit};

use crate::sums::site_quarters;
use ledger_model::{Figures, Listed, Name, Order, Periods};
use station_ledger::{QuarterLine, StationBoard};
use std::alloc::{AllocError, Global};
use std::marker::Model;

/// The board of a site: its name, its settlement periods, the order of its readings, its figures, its quarters with
/// its periods with their energies in rising order, and its stations' boards by name, in the order of declaration.
#[derive(Drop)]
pub struct SiteBoard {
    pub(crate) name: Name,
    pub(crate) period: Periods,
    pub(crate) order: Order,
    pub(crate) figures: Figures,
    pub(crate) quarters: Listed<QuarterLine>,
    pub(crate) stations: Listed<(Name, StationBoard)>,
}

impl Model for SiteBoard {
    ghost use Rattle.board_report.{specs.Named.NamedBoard, specs.Sums.AreQuartersOf};

    ghost Value = { NamedBoard };

    ghost view = { λ b. record { name = b.name; period = b.period; order = b.order; figures = b.figures; quarters = b.quarters; stations = b.stations } };

    ghost invariant = { λ b. AreQuartersOf b.period b.quarters };
}

impl SiteBoard {
    /// The name of the site.
    pub fn name(&self) -> &Name
        ensures { result.now ≡ self.now.name }
    {
        &self.name
    }

    /// Its settlement periods.
    pub fn period(&self) -> Periods
        ensures { result ≡ self.now.period }
    {
        self.period
    }

    /// The order in which its stations take the readings of a transaction.
    pub fn order(&self) -> Order
        ensures { result ≡ self.now.order }
    {
        self.order
    }

    /// The nine figures of the site.
    pub fn figures(&self) -> Figures
        ensures { result ≡ self.now.figures }
    {
        self.figures
    }

    /// The quarters that a station of the site shows, rising, each one of the site's periods and with its
    /// length and with its energies over all stations.
    pub fn quarters(&self) -> &[QuarterLine]
        ensures value { result.now ≡ self.now.quarters }
        ensures own { AreQuartersOf self.now.period result.now }
    {
        self.quarters.as_slice()
    }

    /// The stations' boards, each with the station's name, in the order of declaration.
    pub fn stations(&self) -> &[(Name, StationBoard)]
        ensures { result.now ≡ self.now.stations }
    {
        self.stations.as_slice()
    }

    /// The vectors of the periods and of the stations' boards.
    pub fn into_lists(self) -> (Vec<QuarterLine>, Vec<(Name, StationBoard)>)
        ensures quarters { result.0.items ≡ self.quarters }
        ensures stations { result.1.items ≡ self.stations }
    {
        (self.quarters.into_vec(), self.stations.into_vec())
    }
}

/// The board of a site of this name, these settlement periods and this order of readings, with these figures and these
/// stations' boards: it adds up the stations' energies quarter by quarter, in milliwatt-hours. The boards have to
/// be by those periods ([`StationBoard::period`] has them), and the sums of each quarter to stay below 2^64.
pub fn site_board(
    alloc: Global,
    name: &Name,
    period: Periods,
    order: Order,
    figures: Figures,
    stations: Vec<(Name, StationBoard)>,
) -> Result<SiteBoard, AllocError>
    requires periods { AreOfPeriod period stations.items }
    requires fit { QuartersFit (station_quarters stations.items) }
    ensures name { IfOk result (λ board. board.name ≡ name.now) }
    ensures period { IfOk result (λ board. board.period ≡ period) }
    ensures order { IfOk result (λ board. board.order ≡ order) }
    ensures figures { IfOk result (λ board. board.figures ≡ figures) }
    ensures quarters { IfOk result (λ board. board.quarters ≡ (site_board_of period stations.items).quarters) }
    ensures stations { IfOk result (λ board. board.stations ≡ stations.items) }
{
    let quarters = site_quarters(alloc, &stations)?;
    Ok(SiteBoard {
        name: name.copied(),
        period,
        order,
        figures,
        quarters: Listed::of(quarters),
        stations: Listed::of(stations),
    })
}
