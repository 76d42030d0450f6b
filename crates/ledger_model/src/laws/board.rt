ghost use Rattle.std.{specs.Prelude.{◌≡◌, ◌≢◌, ◌↔◌, ℕ, ◌+◌, ◌<◌, true, List, [], ◌∷◌, ◌++◌, All, codes, length, map}, specs.List.{list_any, range_with_len}, specs.List.Sorted.IsStrictlySortedBy, specs.Str.bytes_eq, specs.Ordering.nat_cmp, specs.Cmp.Lexicographic.slice_cmp};
ghost use Rattle.ledger_model.{specs.Periods.Periods, specs.BoardExamples.{first_run, first_run_board, first_run_site, late_event, late_event_board, void_and_restore, void_and_restore_board, quarter_boundary, closing_periods, quarter_closed, at_first_moment, readings_again_at_end, readings_again_counts, readings_again_quarters, evse_moves, evse_moves_counts, evse_voided, evse_voided_counts, start_voided, start_voided_counts, widest_gap, widest_gap_counts, exported, exported_counts, in_turn, rise, took, ten}, specs.BoardLaws.{AreRising, AreGaps, AreComplete, AreSums, IsIn, flows_over, quarters_over, sum_of_energies}, specs.Board.{Board, board, board_by, figures, flows_under, last_or_zero, plus_figures, site_board, sum_of_figures}, specs.ByDirection.flows_toward, specs.Complete.{is_complete, kinds_of}, specs.Content.{Content, Entry, entries, has_transaction, live, transactions_of}, specs.Energy.{energy_by, energy_in_by, energy_of_by, parts_of_both, quarters_by}, specs.Evse.{energy_at_by, evse_of, evses, first_or_zero}, specs.Gaps.{Gap, gaps, missing, numbers_of}, specs.Settling.default_periods, specs.Posts.{Post, row_after, totals_after}, specs.declared.figures.Figures.Figures, specs.declared.order.Order.Order, specs.declared.reading.Direction.Direction, specs.declared.reading.Direction.TheVariants.Export};

/// The gaps of rising numbers are the maximal ranges of the numbers missing between them, rising; no
/// other list is. Gaps and numbers together make up the range from the lowest to the highest. The
/// live numbers of a transaction rise.
pub fn gaps_are_missing_numbers()
    ensures gaps { (numbers : List ℕ) → AreRising numbers → AreGaps numbers (gaps numbers) }
    ensures only { (numbers : List ℕ) (gs : List Gap) → AreRising numbers → AreGaps numbers gs → gs ≡ gaps numbers }
    ensures missing { (numbers : List ℕ) → AreRising numbers → 0 < length numbers → first_or_zero numbers + length numbers + missing numbers ≡ last_or_zero numbers + 1 }
    ensures rising { (tx : List ℕ) (c : Content) → AreRising (numbers_of tx (entries c)) }
{}

/// A transaction is complete exactly if its lowest live event is Started, its highest is Ended, no
/// other is either, and no number is missing.
pub fn complete_is_four_conditions()
    ensures { (tx : List ℕ) (es : List Entry) → (is_complete tx es ≡ true) ↔ AreComplete (kinds_of tx es) (missing (numbers_of tx es)) }
{}

/// The energy of a station in a direction is the sum over its settlement periods, whatever their length and
/// their rule: so each rule shows the same energy in all.
#[tactic(auto, using(crate::proofs::EnergyLemmas::by_quarter))]
pub fn energy_by_quarter()
    ensures { (order : Order) (d : Direction) (period : Periods) (es : List Entry)
        → energy_by order d es ≡ sum_of_energies (map (λ quarter. energy_in_by order d period quarter es) (quarters_by order period es)) }
{}

/// The energy of a station in a direction is the sum over its EVSEs, with 0 for transactions that name
/// none.
#[tactic(auto, using(crate::proofs::EnergyLemmas::by_evse))]
pub fn energy_by_evse()
    ensures { (order : Order) (d : Direction) (es : List Entry) → energy_by order d es ≡ sum_of_energies (map (λ evse. energy_at_by order d evse es) (evses es)) }
{}

/// The energy of a station in a direction is the sum over its transactions with a live event.
#[tactic(auto, using(crate::proofs::EnergyLemmas::by_transaction))]
pub fn energy_by_transaction()
    ensures { (order : Order) (d : Direction) (es : List Entry) → energy_by order d es ≡ sum_of_energies (map (λ tx. energy_of_by order d tx es) (transactions_of (live es))) }
{}

/// A station shows each period that has a pair of readings of either direction, each EVSE that has a transaction with a
/// live event, and each such transaction. It shows each once: periods and EVSEs by rising number, transactions in the
/// order of their ids' bytes.
pub fn shown_once_and_rising()
    ensures quarters { (order : Order) (period : Periods) (es : List Entry) (quarter : ℕ) → IsIn quarter (quarters_by order period es) ↔ IsIn quarter (map (λ t. t.0) (parts_of_both order period es)) }
    ensures quarters_rise { (order : Order) (period : Periods) (es : List Entry) → AreRising (quarters_by order period es) }
    ensures evses { (es : List Entry) (evse : ℕ) → IsIn evse (evses es) ↔ IsIn evse (map (λ tx. evse_of tx es) (transactions_of (live es))) }
    ensures evses_rise { (es : List Entry) → AreRising (evses es) }
    ensures transactions { (tx : List ℕ) (es : List Entry) → list_any (bytes_eq tx) (transactions_of (live es)) ≡ has_transaction tx (live es) }
    ensures transactions_rise { (c : Content) → IsStrictlySortedBy (slice_cmp nat_cmp) (transactions_of (live (entries c))) }
{}

/// The energy of a site's period is, in each direction, the sum over its stations, whether a station
/// shows the period or not.
#[tactic(auto, using(crate::proofs::EnergyLemmas::site_quarter))]
pub fn site_quarters_are_sums()
    ensures { (order : Order) (period : Periods) (quarter : ℕ) (stations : List (List Entry)) → flows_under quarter (quarters_over order period stations) ≡ flows_over order period quarter stations }
{}

/// Each figure of a site is the sum of that figure over its stations.
pub fn site_figures_are_sums()
    ensures sums { (fs : List Figures) → AreSums (sum_of_figures fs) fs }
    ensures site { (period : Periods) (stations : List (List ℕ × Board)) → AreSums (site_board period stations).figures (map (λ s. s.1.figures) stations) }
{}

/// One more post gives its row the posted figures and leaves every other row as it was. The new
/// totals and the row's old figures add up to the old totals and the posted figures. After posts
/// for n rows, the totals are the sums over these rows.
pub fn totals_after_a_post()
    ensures totals { (row : ℕ) (f : Figures) (ps : List Post) → plus_figures (totals_after (ps ++ (row, f) ∷ [])) (row_after row ps) ≡ plus_figures (totals_after ps) f }
    ensures posted { (row : ℕ) (f : Figures) (ps : List Post) → row_after row (ps ++ (row, f) ∷ []) ≡ f }
    ensures others { (row other : ℕ) (f : Figures) (ps : List Post) → row ≢ other → row_after other (ps ++ (row, f) ∷ []) ≡ row_after other ps }
    ensures rows { (n : ℕ) (ps : List Post) → All (λ p. p.0 < n) ps → totals_after ps ≡ sum_of_figures (map (λ row. row_after row ps) (range_with_len 0 n)) }
{}

/// Boards, figures and periods of a few short transactions, with periods of 900 seconds, and by the later
/// reading if nothing else is said.
pub fn board_examples()
    ensures first_run { board default_periods first_run ≡ first_run_board }
    ensures first_run_site { site_board default_periods ((codes "A", board default_periods first_run) ∷ []) ≡ first_run_site }
    ensures late_event { board default_periods late_event ≡ late_event_board }
    ensures void_and_restore { board default_periods void_and_restore ≡ void_and_restore_board }
    ensures quarter_boundary { (board default_periods quarter_boundary).quarters ≡ (ten + 1, took 100_000) ∷ [] }
    ensures quarter_closed { (board closing_periods quarter_closed).quarters ≡ (ten, took 400_000) ∷ (ten + 1, took 200_000) ∷ (ten + 2, took 100_000) ∷ [] }
    ensures quarter_not_closed { (board default_periods quarter_closed).quarters ≡ (ten + 1, took 400_000) ∷ (ten + 2, took 300_000) ∷ [] }
    ensures first_moment { (board closing_periods at_first_moment).quarters ≡ (1_051_872, took 400_000) ∷ [] }
    ensures readings_again_at_end { (board default_periods readings_again_at_end).quarters ≡ readings_again_quarters }
    ensures readings_again_figures { figures readings_again_at_end ≡ readings_again_counts }
    ensures evse_moves { (board default_periods evse_moves).evses ≡ (2, took 250_000) ∷ [] }
    ensures evse_moves_figures { figures evse_moves ≡ evse_moves_counts }
    ensures evse_voided { (board default_periods evse_voided).evses ≡ (0, took 250_000) ∷ [] }
    ensures evse_voided_figures { figures evse_voided ≡ evse_voided_counts }
    ensures start_voided { (board default_periods start_voided).evses ≡ (2, took 150_000) ∷ [] }
    ensures start_voided_figures { figures start_voided ≡ start_voided_counts }
    ensures widest_gap { gaps (numbers_of (codes "t1") widest_gap) ≡ (1, 2_147_483_646) ∷ [] }
    ensures widest_gap_figures { figures widest_gap ≡ widest_gap_counts }
    ensures exported { (board default_periods exported).quarters ≡ (ten, took 100_000) ∷ (ten + 1, flows_toward Export (rise 30_000)) ∷ [] }
    ensures exported_figures { figures exported ≡ exported_counts }
    ensures in_turn { (board default_periods in_turn).quarters ≡ (ten, record { import = rise 20_000; export = record { up = 0; down = 10_000 } }) ∷ [] }
{}
