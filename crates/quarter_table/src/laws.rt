//! Laws of rows, each the contract of a function that does nothing. A pair is given by its period
//! and its difference in each direction.
ghost use Rattle.std.specs.Prelude.{◌≡◌, ◌≢◌, ◌≤◌, ℕ, List, [], ◌∷◌, ◌++◌, length, map, sum_by};
ghost use Rattle.ledger_model.{specs.Periods.Periods, specs.declared.order.Order.Order, specs.declared.settle.Settle.Settle, specs.Board.{Flowed, board_by}, specs.Content.Entry, specs.Deltas.IsOneMore, specs.ByDirection.in_direction, specs.declared.by_direction.ByDirection.ByDirection, specs.declared.reading.Direction.Direction};
ghost use Rattle.energy_flow.specs.Flow.{Energy};
ghost use Rattle.quarter_table.{specs.Pairs.{total, row_of, rows_of, rows_minus, rows_plus, rows_with, rows_without, board_flows_by, station_flows_by, line_of, HasPair, RowsFollow}, specs.Rows.{no_row, row_at, with_pair}};

/// After a pair was added or taken out, at any place among the pairs, the rows are those of the
/// pairs that are then there. Lists of pairs have the same rows if every sum over them is the same,
/// so the order of the pairs makes no difference.
pub fn rows_follow_pairs()
    ensures empty { rows_of [] ≡ [] }
    ensures added { (front : List Flowed) (f : Flowed) (back : List Flowed) → rows_plus f (rows_of (front ++ back)) ≡ rows_of (front ++ f ∷ back) }
    ensures removed { (front : List Flowed) (f : Flowed) (back : List Flowed) → rows_minus f (rows_of (front ++ f ∷ back)) ≡ rows_of (front ++ back) }
    ensures alike { (xs ys : List Flowed) → ((measure : Flowed → ℕ) → sum_by measure xs ≡ sum_by measure ys) → rows_of xs ≡ rows_of ys }
{}

/// The row of a period counts and adds up the period's pairs. It has one pair more if a pair of its
/// period is added at any place, stays the same if a pair of another period is added, and has no
/// energy if it has no pair.
#[tactic(auto, using(crate::proofs::Made::made_row, crate::proofs::Made::row_with_pair, crate::proofs::Made::row_without_pair, crate::proofs::Made::none_made))]
pub fn each_row_is_of_its_pairs()
    ensures row { (quarter : ℕ) (flows : List Flowed) → row_at quarter (rows_of flows) ≡ row_of quarter flows }
    ensures same_quarter { (front : List Flowed) (quarter : ℕ) (flow : ByDirection Energy) (back : List Flowed)
        → row_of quarter (front ++ (quarter, flow) ∷ back) ≡ with_pair flow (row_of quarter (front ++ back)) }
    ensures other_quarter { (front : List Flowed) (quarter other : ℕ) (flow : ByDirection Energy) (back : List Flowed) → quarter ≢ other
        → row_of quarter (front ++ (other, flow) ∷ back) ≡ row_of quarter (front ++ back) }
    ensures none { (quarter : ℕ) (flows : List Flowed) → (row_of quarter flows).pairs ≡ 0 → row_of quarter flows ≡ no_row quarter }
{}

/// A pair that is there may be taken out: the row of its period counts it, the row's sum includes
/// the difference, and the sum is just that difference if no other pair is left.
pub fn pair_may_be_taken_out()
    ensures { (front : List Flowed) (f : Flowed) (back : List Flowed) → HasPair f.1 (row_at f.0 (rows_of (front ++ f ∷ back))) }
{}

/// There are no more rows than pairs, and no row counts or adds up to more than all pairs.
#[tactic(auto, using(crate::proofs::Held::few_rows, crate::proofs::Held::few_pairs, crate::proofs::Held::row_up_le, crate::proofs::Held::row_down_le))]
pub fn rows_are_within_pairs()
    ensures rows { (flows : List Flowed) → length (rows_of flows) ≤ length flows }
    ensures pairs { (quarter : ℕ) (flows : List Flowed) → (row_of quarter flows).pairs ≤ length flows }
    ensures up { (d : Direction) (quarter : ℕ) (flows : List Flowed) → (in_direction d (row_of quarter flows).energy).up ≤ (in_direction d (total flows)).up }
    ensures down { (d : Direction) (quarter : ℕ) (flows : List Flowed) → (in_direction d (row_of quarter flows).energy).down ≤ (in_direction d (total flows)).down }
{}

/// The rows of a station's pairs, of both directions, follow its events. With one more live event, the
/// pairs that go are taken out and those that come are added, one after the other; with one less, the
/// other way round. No pair goes or comes in a direction in which the event has no reading.
pub fn rows_follow_events()
    ensures several_added { (flows others : List Flowed) → rows_with flows (rows_of others) ≡ rows_of (flows ++ others) }
    ensures several_removed { (flows others : List Flowed) → rows_without flows (rows_of (flows ++ others)) ≡ rows_of others }
    ensures events { (period : Periods) (es more front : List Entry) (e : Entry) (back : List Entry) → IsOneMore es more front e back → RowsFollow period es more front e back }
{}

/// The rows of the parts of a station's differences are the periods of its board, in either order. Where no difference
/// is shared, these are the rows of its pairs.
#[tactic(auto, using(crate::proofs::Boards::lines_of_station, crate::proofs::Boards::whole_station))]
pub fn rows_are_quarters_of_board()
    ensures board { (order : Order) (period : Periods) (es : List Entry) → map line_of (rows_of (board_flows_by order period es)) ≡ (board_by order period es).quarters }
    ensures whole { (order : Order) (period : Periods) (es : List Entry) → period.rule ≢ Settle.Even → board_flows_by order period es ≡ station_flows_by order period es }
{}
