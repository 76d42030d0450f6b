//! Worked examples: two transactions of one station, and each alone.
ghost use Rattle.std.specs.Prelude.{◌≡◌, List, [], ◌∷◌, ◌++◌, codes, filter, map};
ghost use Rattle.ledger_model.{specs.Admissible.key_of, specs.Board.board, specs.Content.empty_content, specs.Deltas.own_events, specs.Examples.narrow_limits, specs.Laws.answers, specs.Settling.default_periods};
ghost use Rattle.transaction_laws.{specs.Alone.belongs_to, specs.BoardSums.sum_of_boards, specs.Examples.{answers_alone, answers_among, answers_with_refused, both_board, crowded, first_board, first_events, second_board, second_events, two_stations}, specs.SiteSums.sum_of_stations, specs.Transcript.{commands_in, own_transcript}};

/// The answers to a transaction's commands among others and alone, at a station that is soon full. A delivery
/// that the limit of events refuses, because of another transaction, would be accepted alone: so it is no part
/// of the transaction.
pub fn examples_of_answers()
    ensures among { map (λ l. l.1) (own_transcript (codes "t1") narrow_limits crowded) ≡ answers_among }
    ensures alone { answers narrow_limits empty_content (commands_in (own_transcript (codes "t1") narrow_limits crowded)) ≡ answers_alone }
    ensures with_refused { answers narrow_limits empty_content (filter (λ command. belongs_to (codes "t1") (key_of command)) crowded) ≡ answers_with_refused }
{}

/// Two transactions that share a station, an EVSE and a period: their events apart, the board of each, and the
/// board of both as the sum. The board of a site of two such stations is the sum of three boards.
pub fn examples_of_boards()
    ensures first { own_events (codes "t1") (first_events ++ second_events) ≡ first_events }
    ensures second { own_events (codes "t2") (first_events ++ second_events) ≡ second_events }
    ensures first_alone { board default_periods first_events ≡ first_board }
    ensures second_alone { board default_periods second_events ≡ second_board }
    ensures both { board default_periods (first_events ++ second_events) ≡ both_board }
    ensures sum { sum_of_boards default_periods (first_board ∷ second_board ∷ []) ≡ both_board }
    ensures site { sum_of_stations default_periods ((codes "A", first_board ∷ second_board ∷ []) ∷ (codes "B", second_board ∷ []) ∷ []) ≡ two_stations }
{}
