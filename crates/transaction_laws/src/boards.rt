//! Laws of boards, by transaction.
ghost use Rattle.std.specs.Prelude.{◌≡◌, ℕ, if◌then◌else◌, List, [], ◌∷◌, map};
ghost use Rattle.ledger_model.{specs.Board.{board_by, figures_by, shown_by, site_board, sum_of_figures}, specs.BoardLaws.sum_of_energies, specs.Content.{Content, Entry, empty_content, entries, has_transaction, live, transactions_of}, specs.declared.command.Command.Command, specs.declared.order.Order.Order, specs.declared.reading.Direction.Direction, specs.Deltas.own_events, specs.Energy.{all_pairs_by, energy_in_by, pairs_by}, specs.Entries.IsRising, specs.Evse.energy_at_by, specs.Laws.left_by, specs.Limits.Bounds, specs.Periods.Periods, specs.World.Station};
ghost use Rattle.transaction_laws.{specs.Alone.{AreEnough, alone}, specs.BoardSums.{board_alone, board_of_run, sum_of_boards, transactions}, specs.SiteSums.{StationBoards, boards_alone, station_sum, sum_of_stations}};

/// A board shows a transaction as it is alone, and alone it is all that a board shows, if it has a live
/// event. The differences of its readings are those that it has alone.
pub fn board_of_a_transaction()
    ensures shown { (order : Order) (c : Content) (tx : List ℕ) (n : ℕ) → shown_by order (entries (alone tx n c)) tx ≡ shown_by order (entries c) tx }
    ensures only { (order : Order) (period : Periods) (c : Content) (tx : List ℕ) (n : ℕ)
        → (board_by order period (entries (alone tx n c))).transactions ≡ (if has_transaction tx (live (entries c)) then shown_by order (entries c) tx ∷ [] else []) }
    ensures pairs { (order : Order) (d : Direction) (c : Content) (tx : List ℕ) (n : ℕ) → all_pairs_by order d (entries (alone tx n c)) ≡ pairs_by order d tx (entries c) }
{}

/// The energy of a station's period in a direction is the sum over its transactions, each alone: whether the
/// station shows the period or not, and by each order of readings and each rule of settling. So is the
/// energy of an EVSE, and so are the station's figures.
pub fn energies_are_sums()
    ensures periods { (order : Order) (d : Direction) (period : Periods) (quarter : ℕ) (c : Content)
        → energy_in_by order d period quarter (entries c) ≡ sum_of_energies (map (λ tx. energy_in_by order d period quarter (entries (alone tx 0 c))) (transactions c)) }
    ensures evses { (order : Order) (d : Direction) (evse : ℕ) (c : Content)
        → energy_at_by order d evse (entries c) ≡ sum_of_energies (map (λ tx. energy_at_by order d evse (entries (alone tx 0 c))) (transactions c)) }
    ensures figures { (order : Order) (c : Content) → figures_by order (entries c) ≡ sum_of_figures (map (λ tx. figures_by order (entries (alone tx 0 c))) (transactions c)) }
{}

/// The board of a station is the sum of the boards of its transactions, by each order of readings, each
/// length of settlement periods and each rule of settling: the figures, the energies of each EVSE and of
/// each period in both directions, and the transactions in the order of their ids. So it is after any run,
/// where each transaction has the board that its own commands leave alone.
pub fn boards_are_sums()
    ensures content { (order : Order) (period : Periods) (c : Content) → board_by order period (entries c) ≡ sum_of_boards period (map (board_alone order period c) (transactions c)) }
    ensures entries { (order : Order) (period : Periods) (es : List Entry) → IsRising es
        → board_by order period es ≡ sum_of_boards period (map (λ tx. board_by order period (own_events tx es)) (transactions_of es)) }
    ensures run { (order : Order) (period : Periods) (limits lone : Bounds) (commands : List Command) → AreEnough limits lone
        → board_by order period (entries (left_by limits empty_content commands))
        ≡ sum_of_boards period (map (λ tx. board_of_run order period lone tx limits commands) (transactions (left_by limits empty_content commands))) }
{}

/// The board of a site over stations whose boards are sums is the sum of all these boards: no figure and no
/// energy of a period is counted twice or lost. So the board of a site is the sum over the transactions of its
/// stations, each alone.
pub fn site_boards_are_sums()
    ensures boards { (period : Periods) (stations : List StationBoards) → site_board period (map (station_sum period) stations) ≡ sum_of_stations period stations }
    ensures transactions { (order : Order) (period : Periods) (stations : List Station)
        → site_board period (map (λ station. (station.name, board_by order period (entries station.content))) stations) ≡ sum_of_stations period (map (boards_alone order period) stations) }
{}
