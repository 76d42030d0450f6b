//! A live server: connections, an operator's lines while stations are served, and a clean end.
//!
//! [`serve_plan_at`] serves the stations of a plan at a desk that the caller hands in, which is anything that
//! [`Serves`](running_desk::Serves). It writes where it listens, and starts workers. They accept connections and serve
//! them at a [`Running`](running_desk::Running) desk, for as long as the server lives or up to a given number.
//! `Workers` has which connections must end, `Log` reports sessions, `NearLimits` has which limits of stations are
//! nearly used, and a `Connection` has the time of one connection. Meanwhile the calling thread answers an operator's
//! lines ([`operate`](running_desk::operate)), a thread glances at the totals, and another one answers browsers with
//! boards ([`response`]). At the end it joins them all, and returns passes, viewers and the output. `Seats` know which
//! worker serves a session of which station, and which connection to end: the oldest of three sessions of a station, or
//! the oldest handshake.
//!
//! The output takes the lines of the ports, and then the answers to the operator's lines in their order up to `close`
//! (`Tells` of `specs/Told.antt`). A browser's board is that of the site in its request. A session gets a pass of the
//! station that its request names. Tests show that connections are accepted, sessions end in time and passes come back.
//!
//! ```text
//! let ran = serve_plan_at(run, &desk, passes, viewers, &mut input, output, lines)?;   // until the input ends or says `close`
//! ```
#![tactic(auto)]

mod acceptor;
mod boards;
mod connection;
mod listeners;
mod log;
mod near_limits;
mod reply;
mod request;
mod seats;
mod service;
mod session;
mod session_answers;
mod shared;
mod watch;
mod workers;

pub use reply::{Status, response};
pub use service::{Live, Ran, Run, serve_plan_at};
