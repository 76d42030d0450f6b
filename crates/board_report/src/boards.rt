ghost use Rattle.std.specs.Prelude.{◌≡◌, ◌+◌, ◌-◌, ◌<◌, ◌≤◌, IfOk, OnOk, length, sum_by, take};
ghost use Rattle.ledger_model.specs.Ranges.{most_plan_readings};
ghost use Rattle.board_report.{specs.Plans.AreBoardsWithin, specs.Texts.board_text, specs.Boards.{AreOpenedFor, site_boards, site_under}, specs.Looks.looks_over};
ghost use Rattle.station_ledger.specs.Quarters.{IsWork};
ghost use Rattle.site_desk.specs.Parts.{limits_at};

use crate::board::site_board;
use crate::write::write_board;
use energy_flow::Work;
use ledger_model::{Figures, Name};
use site_desk::{Plan, StationCell};
use station_ledger::StationBoard;
use std::alloc::{AllocError, Global};

/// The text of the board of the site of this number, under this name, by the site's settlement periods and
/// order of readings and with these totals, over the cells of its stations.
///
/// Condition: the plan has the site, each of its stations has its cell, opened with its limits and its site's
/// length of periods and order, and the limits allow no more than 1,048,576 readings in all, as in a desk's
/// plan. `work` counts the looks that the boards of the stations take, also before an error.
pub fn site_text(
    alloc: Global,
    plan: &Plan,
    cells: &[StationCell],
    site: usize,
    name: &Name,
    totals: Figures,
    work: &mut Work,
) -> Result<Vec<u8>, AllocError>
    requires planned { site < length plan.now.sites.items }
    requires cells { AreOpenedFor plan.now.sites.items plan.now.stations.items cells.now }
    requires readings { sum_by (λ s. s.limits.readings) plan.now.stations.items ≤ most_plan_readings }
    ensures work { IsWork (looks_over plan.now.stations.items cells.now site) work.old work.new }
    ensures text { IfOk result (λ text. text.items ≡ board_text (site_under plan.now.sites.items plan.now.stations.items cells.now site name.now totals)) }
{
    let period = plan.period(site);
    let order = plan.order(site);
    let boards = boards_of(alloc, plan, cells, site, work)?;
    let board = site_board(alloc, name, period, order, totals, boards)?;
    write_board(alloc, &board)
}

// The boards of the stations of the site of this number, each with the station's name.
fn boards_of(
    alloc: Global,
    plan: &Plan,
    cells: &[StationCell],
    site: usize,
    work: &mut Work,
) -> Result<Vec<(Name, StationBoard)>, AllocError>
    requires { AreOpenedFor plan.now.sites.items plan.now.stations.items cells.now }
    ensures work { IsWork (looks_over plan.now.stations.items cells.now site) work.old work.new }
    ensures boards { IfOk result (λ boards. boards.items ≡ site_boards plan.now.sites.items plan.now.stations.items cells.now site) }
    ensures within { IfOk result (λ boards. AreBoardsWithin (limits_at plan.now.stations.items site) boards.items) }
{
    let mut boards = Vec::new(alloc);
    for number in 0..plan.stations.len() {
        add_board(alloc, plan, cells, number, site, &mut boards, work)?;
    }
    Ok(boards)
}

// Adds the board of the station of this number, if it is at the site, to those of the stations before it.
fn add_board(
    alloc: Global,
    plan: &Plan,
    cells: &[StationCell],
    number: usize,
    site: usize,
    boards: &mut Vec<(Name, StationBoard)>,
    work: &mut Work,
) -> Result<(), AllocError>
    requires there { number < length plan.now.stations.items }
    requires cells { AreOpenedFor plan.now.sites.items plan.now.stations.items cells.now }
    requires boards { boards.old.items ≡ site_boards plan.now.sites.items (take number plan.now.stations.items) cells.now site }
    requires within { AreBoardsWithin (limits_at (take number plan.now.stations.items) site) boards.old.items }
    ensures work { IsWork (looks_over (take (number + 1) plan.now.stations.items) cells.now site - looks_over (take number plan.now.stations.items) cells.now site) work.old work.new }
    ensures boards { OnOk result (boards.new.items ≡ site_boards plan.now.sites.items (take (number + 1) plan.now.stations.items) cells.now site) }
    ensures within { OnOk result (AreBoardsWithin (limits_at (take (number + 1) plan.now.stations.items) site) boards.new.items) }
{
    let stations = plan.stations.as_slice();
    let station = &stations[number];
    if station.site as usize != site {
        return Ok(());
    }
    let board = cells[number].ledger().board(alloc, work)?;
    boards.push((station.name.copied(), board))?;
    Ok(())
}
