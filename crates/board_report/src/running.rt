//! The board of a site of a running desk.
ghost use Rattle.std.specs.Prelude.{◌≡◌, ◌<◌, ◌≤◌, IfOk, length, map, sum_by};
ghost use Rattle.ledger_model.{specs.Board.sum_of_figures, specs.Ranges.most_plan_readings};
ghost use Rattle.site_desk.{specs.Operator.site_looks, specs.Roster.AreNewPlaces};
ghost use Rattle.station_ledger.specs.Quarters.{IsWork};
ghost use Rattle.board_report.{specs.Running.{AreBoardsOfPlan, IsRunningBoard, running_site}, specs.Texts.board_text};

use crate::board::site_board;
use crate::write::write_board;
use energy_flow::Work;
use ledger_model::{Figures, Name};
use site_book::Naming;
use site_desk::{BoardFault, Desk, HasCell, Plan};
use station_ledger::StationBoard;
use std::alloc::{AllocError, Global};
use std::sync::Wait;

/// The text of the board of the site of this number at one moment, while the desk takes commands: each of its stations'
/// boards from scratch from the content of its ledger, in the plan's order, and the sums over them. It waits for the
/// locks of these stations and of the site's book. `work` counts the looks that the boards take. Errors: `OutOfMemory`,
/// and `Torn` if cells and book don't fit together, which no run meets.
///
/// Condition: the desk was opened for this plan, the plan has the site, and its limits allow no more than 1,048,576
/// readings in all.
pub fn running_board<J: Naming, C: HasCell, R: Wait>(
    rt: &R,
    alloc: Global,
    plan: &Plan,
    desk: &Desk<J, C>,
    site: u16,
    work: &mut Work,
) -> Result<Vec<u8>, BoardFault>
    requires opened { AreNewPlaces plan.now.sites.items plan.now.stations.items desk.now.stations }
    requires readings { sum_by (λ s. s.limits.readings) plan.now.stations.items ≤ most_plan_readings }
    requires planned { site < length plan.now.sites.items }
    ensures work { IsWork (site_looks desk.now.stations site) work.old work.new }
    ensures text { IfOk result (λ text. IsRunningBoard plan.now.sites.items desk.now.stations site text.items) }
{
    let (boards, totals) = match desk.site_boards(rt, alloc, site, work) {
        Ok(shown) => shown,
        Err(fault) => return Err(fault),
    };
    match running_text(alloc, plan, site, boards, totals) {
        Ok(text) => Ok(text),
        Err(_) => Err(BoardFault::OutOfMemory),
    }
}

/// The text of the board of the site of this number over these boards of its stations, in the plan's order, with the
/// sum of their figures. The error says that the allocator refused memory.
///
/// Condition: the boards are those of a desk that was opened for this plan, the plan has the site, and its limits allow
/// no more than 1,048,576 readings in all.
pub fn running_text(
    alloc: Global,
    plan: &Plan,
    site: u16,
    boards: Vec<(Name, StationBoard)>,
    totals: Figures,
) -> Result<Vec<u8>, AllocError>
    requires opened { AreBoardsOfPlan plan.now.sites.items plan.now.stations.items site boards.items }
    requires totals { totals ≡ sum_of_figures (map (λ s. s.1.figures) boards.items) }
    requires readings { sum_by (λ s. s.limits.readings) plan.now.stations.items ≤ most_plan_readings }
    requires planned { site < length plan.now.sites.items }
    ensures { IfOk result (λ text. text.items ≡ board_text (running_site plan.now.sites.items site boards.items)) }
{
    let number = site as usize;
    let name = plan.sites.as_slice()[number].name.copied();
    let period = plan.period(number);
    let order = plan.order(number);
    let board = site_board(alloc, &name, period, order, totals, boards)?;
    write_board(alloc, &board)
}
