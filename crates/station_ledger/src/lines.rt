//! The lines of a board, from the sums over a station's live events.
ghost use Rattle.std.{specs.Prelude.{◌≡◌, ◌+◌, List, Some, IfOk, length, map}, specs.FinMap.find};
ghost use Rattle.event_chain.specs.Chains.{stored};
ghost use Rattle.ledger_model.{specs.Board.{board_by, figures_by, shown_by}, specs.Evse.{flows_at_by, evses as evses_of}, specs.Content.{Entry, live, transactions_of}, specs.declared.order.Order.Order, specs.Gaps.{gaps, numbers_of}, specs.Ranges.greatest_evse};
ghost use Rattle.quarter_table.specs.Pairs.{line_of};
ghost use Rattle.station_ledger.{specs.Looks.most_looks, specs.Numbered.AreNumbered, specs.Quarters.IsWork, specs.Standing.standing_by, specs.Sums.{AreAllowed, AreEvseSums, AreStanding, AreSummed, order_in}};
ghost use Rattle.transaction_map.specs.Map.{id_cmp};

use crate::board::{EvseLine, QuarterLine, StationBoard, TxLine};
use crate::shares::shared_rows;
use crate::sums::Sums;
use crate::totals::EvseSum;
use energy_flow::Work;
use event_chain::Chains;
use gap_list::Gaps;
use ledger_model::{EvseId, Figures, GREATEST_EVSE, Listed, Settle, TxId};
use quarter_table::QuarterTable;
use std::alloc::{AllocError, Global};

// The lines of the settlement periods, rising.
pub(crate) fn quarter_lines(
    alloc: Global,
    quarters: &QuarterTable,
) -> Result<Vec<QuarterLine>, AllocError>
    ensures { IfOk result (λ lines. lines.items ≡ map line_of quarters.now.rows) }
{
    let mut lines = Vec::new(alloc);
    for row in quarters.rows() {
        lines.push(QuarterLine::new(row.quarter, row.energy))?;
    }
    Ok(lines)
}

// The lines of the EVSEs that have a transaction with a live event, rising.
pub(crate) fn evse_lines(alloc: Global, evses: &[EvseSum]) -> Result<Vec<EvseLine>, AllocError>
    requires { length evses.now ≡ greatest_evse + 1 }
    ensures { IfOk result (λ lines. (order : Order) (es : List Entry) → AreNumbered es → AreEvseSums order es evses.now → lines.items ≡ map (λ evse. (evse, flows_at_by order evse es)) (evses_of es)) }
{
    let mut lines = Vec::new(alloc);
    for number in 0..GREATEST_EVSE + 1 {
        let sum = evses[usize::from(number)];
        if sum.transactions > 0 {
            // An EVSE's number is at most 64.
            let evse = EvseId::new(number).unwrap();
            lines.push(EvseLine::new(evse, sum.energy))?;
        }
    }
    Ok(lines)
}

// The ranges of a transaction's missing numbers, rising.
fn gaps(alloc: Global, chains: &Chains, tx: &TxId) -> Result<Vec<(u32, u32)>, AllocError>
    ensures { IfOk result (λ list. list.items ≡ gaps (numbers_of tx.now (stored chains.now))) }
{
    Gaps::over(&chains.walk(tx)).collect(alloc)
}

// The line of a transaction that has a standing.
fn transaction_line(
    alloc: Global,
    chains: &Chains,
    sums: &Sums,
    tx: &TxId,
) -> Result<TxLine, AllocError>
    requires within { AreAllowed (order_in sums.now) chains.now.limits (stored chains.now) }
    requires numbered { AreNumbered (stored chains.now) }
    requires kept { find id_cmp tx.now sums.now.kept.rows ≡ Some (standing_by (order_in sums.now) tx.now (stored chains.now)) }
    ensures { IfOk result (λ line. line ≡ shown_by (order_in sums.now) (stored chains.now) tx.now) }
{
    let standing = sums.kept.get(tx).unwrap();
    Ok(TxLine {
        tx: tx.copied(),
        evse: standing.evse,
        events: u64::from(standing.live),
        first: chains.first(tx).unwrap_or(0),
        last: chains.last(tx).unwrap_or(0),
        complete: standing.complete,
        missing: u64::from(standing.missing),
        energy: standing.energy,
        gaps: Listed::of(gaps(alloc, chains, tx)?),
    })
}

// The lines of the transactions with a live event, by rising id.
pub(crate) fn transaction_lines(
    alloc: Global,
    chains: &Chains,
    sums: &Sums,
) -> Result<Vec<TxLine>, AllocError>
    requires within { AreAllowed (order_in sums.now) chains.now.limits (stored chains.now) }
    requires numbered { AreNumbered (stored chains.now) }
    requires standing { AreStanding (order_in sums.now) chains.now.limits (stored chains.now) sums.now.kept }
    ensures { IfOk result (λ lines. lines.items ≡ map (shown_by (order_in sums.now) (stored chains.now)) (transactions_of (live (stored chains.now)))) }
{
    let mut lines = Vec::new(alloc);
    for place in 0..sums.kept.len() as usize {
        // Each place has an id, and each id has a standing.
        let tx = sums.kept.id_at(place).unwrap();
        lines.push(transaction_line(alloc, chains, sums, tx)?)?;
    }
    Ok(lines)
}

// The lines of the settlement periods by the site's rule: from the rows that are kept, or shared now.
fn settled_lines(
    alloc: Global,
    chains: &Chains,
    sums: &Sums,
    work: &mut Work,
) -> Result<Vec<QuarterLine>, AllocError>
    requires within { AreAllowed (order_in sums.now) chains.now.limits (stored chains.now) }
    requires numbered { AreNumbered (stored chains.now) }
    requires summed { AreSummed chains.now.limits (stored chains.now) sums.now }
    ensures work { IsWork (most_looks sums.now.period.rule (order_in sums.now) (stored chains.now)) work.old work.new }
    ensures lines { IfOk result (λ lines. lines.items ≡ (board_by (order_in sums.now) sums.now.period (stored chains.now)).quarters) }
{
    match sums.period.rule() {
        Settle::Later | Settle::Closing => quarter_lines(alloc, &sums.quarters),
        Settle::Even => quarter_lines(alloc, &shared_rows(alloc, chains, sums, work)?),
    }
}

// The board of what is stored, with these figures.
pub(crate) fn board_of(
    alloc: Global,
    chains: &Chains,
    sums: &Sums,
    figures: Figures,
    work: &mut Work,
) -> Result<StationBoard, AllocError>
    requires within { AreAllowed (order_in sums.now) chains.now.limits (stored chains.now) }
    requires numbered { AreNumbered (stored chains.now) }
    requires summed { AreSummed chains.now.limits (stored chains.now) sums.now }
    requires figures { figures ≡ figures_by (order_in sums.now) (stored chains.now) }
    ensures work { IsWork (most_looks sums.now.period.rule (order_in sums.now) (stored chains.now)) work.old work.new }
    ensures board { IfOk result (λ b. b ≡ board_by (order_in sums.now) sums.now.period (stored chains.now)) }
{
    let transactions = transaction_lines(alloc, chains, sums)?;
    let evses = evse_lines(alloc, &sums.evses)?;
    let quarters = settled_lines(alloc, chains, sums, work)?;
    Ok(StationBoard {
        // Settlement periods of one of the four lengths begin at moments.
        period: sums.period.copied(),
        figures,
        evses: Listed::of(evses),
        quarters: Listed::of(quarters),
        transactions: Listed::of(transactions),
    })
}
