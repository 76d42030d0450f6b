//! The places of rows, and changes at them.
ghost use Rattle.std.{specs.Prelude.{◌≡◌, ◌<◌, ◌≤◌, ◌+◌, ◌-◌, IfOk, IfErr, length, get_or, slice_get, Some, slice_set}, specs.List.{insert, remove}, specs.Vec.{vec_len, vec_capacity}};
ghost use Rattle.quarter_table.{specs.Rows.{row_at, earlier, AreInOrder}, specs.Kept.{StandsAt, BelongsAt}};

use crate::row::QuarterRow;
use ledger_model::Quarter;

// How many rows are of earlier periods.
fn earlier_rows(rows: &Vec<QuarterRow>, quarter: Quarter) -> usize
    requires { AreInOrder rows.now.items }
    ensures { result ≡ length (earlier quarter rows.now.items) }
{
    let number = quarter.number();
    let mut low = 0;
    let mut high = rows.len();
    while low < high {
        let middle = low + (high - low) / 2;
        if rows[middle].quarter.number() < number {
            low = middle + 1;
        } else {
            high = middle;
        }
    }
    low
}

// The place of the row of a period; the error says where it belongs.
fn place_of(rows: &Vec<QuarterRow>, quarter: Quarter) -> Result<usize, usize>
    requires { AreInOrder rows.now.items }
    ensures stands { IfOk result (λ at. StandsAt quarter rows.now.items at) }
    ensures belongs { IfErr result (λ at. BelongsAt quarter rows.now.items at) }
{
    let at = earlier_rows(rows, quarter);
    if at < rows.len() && rows[at].quarter.number() == quarter.number() {
        Ok(at)
    } else {
        Err(at)
    }
}

/// The place of the row of a period; the error says where it belongs. The call looks at the place `near`
/// first.
pub(crate) fn place_near(
    rows: &Vec<QuarterRow>,
    near: usize,
    quarter: Quarter,
) -> Result<usize, usize>
    requires { AreInOrder rows.now.items }
    ensures stands { IfOk result (λ at. StandsAt quarter rows.now.items at) }
    ensures belongs { IfErr result (λ at. BelongsAt quarter rows.now.items at) }
{
    if near < rows.len() && rows[near].quarter.number() == quarter.number() {
        return Ok(near);
    }
    place_of(rows, quarter)
}
