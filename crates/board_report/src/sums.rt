// The sums of a site by settlement period.
ghost use Rattle.std.{specs.Prelude.{◌≡◌, ℕ, reverse, IfOk, OnOk}, specs.List.Sorted.IsPermutation};
ghost use Rattle.ledger_model.specs.Periods.{Periods};
ghost use Rattle.board_report.{specs.Lines.{quarter_sums, AreInOrder, put_line, CanLead}, specs.Sums.{station_quarters, AreOfPeriod, AreQuartersOf, QuartersFit}};

use ledger_model::Name;
use station_ledger::{QuarterLine, StationBoard};
use std::alloc::{AllocError, Global};

// The lines of the periods that stations show, station after station.
fn station_quarters(
    alloc: Global,
    stations: &[(Name, StationBoard)],
) -> Result<Vec<QuarterLine>, AllocError>
    ensures lines { IfOk result (λ lines. lines.items ≡ station_quarters stations.now) }
    ensures own { IfOk result (λ lines. (period : Periods) → AreOfPeriod period stations.now → AreQuartersOf period lines.items) }
{
    let mut lines = Vec::new(alloc);
    for station in stations {
        lines.extend_from_slice(station.1.quarters())?;
    }
    Ok(lines)
}

// Puts lines in the order of their periods.
fn put_in_order(lines: &mut Vec<QuarterLine>)
    ensures same { IsPermutation lines.old.items lines.new.items }
    ensures order { AreInOrder lines.new.items }
{
    lines.sort_unstable_by_key(|line| line.quarter().number());
}

// Adds a line to falling ones; none of them is of an earlier period.
fn add_line(falling: &mut Vec<QuarterLine>, added: QuarterLine) -> Result<(), AllocError>
    requires { CanLead added (reverse falling.old.items) }
    ensures { OnOk result (reverse falling.new.items ≡ put_line added (reverse falling.old.items)) }
{
    let Some(last) = falling.pop() else {
        falling.push(added)?;
        return Ok(());
    };
    if last.quarter() == added.quarter() {
        let energy = added.energy().plus(last.energy());
        falling.push(QuarterLine::new(last.quarter(), energy))?;
    } else {
        falling.push(last)?;
        falling.push(added)?;
    }
    Ok(())
}

// The sums of lines that are in order, the last period first.
fn falling_sums(alloc: Global, lines: &[QuarterLine]) -> Result<Vec<QuarterLine>, AllocError>
    requires order { AreInOrder lines.now }
    requires fit { QuartersFit lines.now }
    ensures { IfOk result (λ sums. reverse sums.items ≡ quarter_sums lines.now) }
{
    let mut falling = Vec::new(alloc);
    let mut left = lines;
    while let [rest @ .., last] = left {
        add_line(&mut falling, *last)?;
        left = rest;
    }
    Ok(falling)
}

// The periods that stations show, rising, each with the sum of its energies.
pub(crate) fn site_quarters(
    alloc: Global,
    stations: &[(Name, StationBoard)],
) -> Result<Vec<QuarterLine>, AllocError>
    requires { QuartersFit (station_quarters stations.now) }
    ensures sums { IfOk result (λ quarters. quarters.items ≡ quarter_sums (station_quarters stations.now)) }
    ensures own { IfOk result (λ quarters. (period : Periods) → AreOfPeriod period stations.now → AreQuartersOf period quarters.items) }
{
    let mut lines = station_quarters(alloc, stations)?;
    put_in_order(&mut lines);
    let mut quarters = falling_sums(alloc, &lines)?;
    quarters.reverse();
    Ok(quarters)
}
