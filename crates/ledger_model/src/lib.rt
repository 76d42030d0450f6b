//! The types of the transaction ledger, and the definitions that a reader has to believe.
//!
//! A station sends transaction events ([`Event`]). A [`Key`] identifies each: the id of its transaction and a
//! sequence number (TransactionEventRequest, OCPP 2.0.1 Part 2, block E). An event carries counted [`Reading`]s
//! of the active energy registers, each of a [`Direction`] (MeterValueType, block J); a [`ByDirection`] has a
//! value for each direction. A [`Command`] to a station's ledger gets one [`Answer`]. [`Limits`] bound what the
//! ledger may keep, and [`Figures`] sum it up.
//!
//! The crate's contract: a constructor returns `None` or `Err` exactly outside the limits, and a
//! value gives back what it was made of, transaction ids in lower case. The definitions of content,
//! step, energy, gaps, figures, boards, worlds and posts are in `specs/`; the crates above compute
//! what these say.
//!
//! ```text
//! let key = Key::new(TxId::new("T1")?, 7)?;     // key.tx().text() is "t1", key.seq() is 7
//! Reading::new(moment, 10_000_000_000_001)      // None: more than 10^13 mWh
//! ```
#![tactic(auto)]

mod answer;
mod by_direction;
mod command;
mod event;
mod evse;
mod figures;
mod key;
mod kind;
pub mod laws;
mod limits;
mod listed;
mod moment;
mod name;
mod order;
mod period;
mod periods;
mod reading;
mod settle;
mod tx_id;

pub use answer::{Answer, Refusal};
pub use by_direction::ByDirection;
pub use command::Command;
pub use event::{Event, MAX_EVENT_READINGS};
pub use evse::{EvseId, GREATEST_EVSE};
pub use figures::{FIGURES, Figures};
pub use key::{Key, SEQUENCE_END};
pub use kind::Kind;
pub use limits::{
    Limits, MAX_CHANGES, MAX_EVENTS, MAX_PLAN_READINGS, MAX_READINGS, MAX_SITES, MAX_STATIONS,
    MAX_TRANSACTIONS,
};
pub use listed::Listed;
pub use moment::{FIRST_MOMENT, FIRST_QUARTER, LAST_QUARTER, MOMENTS_END, Moment, Quarter};
pub use name::{MAX_NAME, Name};
pub use order::Order;
pub use period::Period;
pub use periods::Periods;
pub use reading::{Direction, GREATEST_READING, Reading};
pub use settle::Settle;
pub use tx_id::{MAX_TX_ID, TxId};
