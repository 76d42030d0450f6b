//! Laws of the definitions, in the subject's own words. Each is the contract of a function that has
//! no parameters and does nothing. What it ensures holds for every content, all limits and every
//! command.

mod board;
mod deltas;
mod ledger;
mod order;
mod world;

pub use board::{
    board_examples, complete_is_four_conditions, energy_by_evse, energy_by_quarter,
    energy_by_transaction, gaps_are_missing_numbers, shown_once_and_rising, site_figures_are_sums,
    site_quarters_are_sums, totals_after_a_post,
};
pub use deltas::{
    energies_with_one_event_more, figures_with_one_event_more, one_event_more_or_less,
    pairs_of_readings_put_in, pairs_with_one_event_more,
};
pub use ledger::{examples, inverses, orders, reached, readings_in_order, unchanged};
pub use order::{
    order_examples, orders_agree, readings_by_moment, readings_with_one_event_more,
    repeats_change_no_sum,
};
pub use world::{each_station_by_its_own_commands, live_events_alone, orders_of_runs};
