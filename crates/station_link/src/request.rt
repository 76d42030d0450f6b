//! What a handshake sees of a client's request, and which requests the desk lets in.
ghost use Rattle.std.specs.Prelude.{IfOk, IfErr, true, Some};
ghost use Rattle.station_link.{specs.Request.{IsAdmitted, IsAsked, IsPathOf, IsRefusal}, specs.Session.MayLackPass};

use crate::ending::Why;
use http::{HeaderMap, HeaderName, HeaderValue, Request, Response};
use ledger_model::Name;
use site_book::Naming;
use site_desk::{Desk, EnlistFault, Pass};
use std::cell::Cell;
use std::sync::Wait;
use std::thread::Threads;
use tungstenite::Callback;
use tungstenite::handshake::server::ErrorResponse;

// How the path of a session begins; the station's name is the rest of it (this product's profile).
const PATH_START: &str = "/ocpp/";

// The subprotocol of OCPP 2.0.1 (Part 4).
const SUBPROTOCOL: &str = "ocpp2.0.1";

/// What a handshake saw of the request.
#[derive(Drop)]
pub enum Seen {
    /// No request with a path that could be read.
    Nothing,
    /// A request that offers the subprotocol; there was no memory to take it up.
    NoMemory,
    /// A request.
    Request {
        /// Whether it offers the subprotocol of OCPP 2.0.1.
        offered: bool,
        /// The name in a path of `/ocpp/` and a name.
        station: Option<Name>,
    },
}

// Notes what the handshake sees, and takes up the subprotocol if it is offered.
#[derive(Drop)]
pub(crate) struct Look<'a> {
    pub(crate) seen: &'a Cell<Seen>,
}

impl Callback for Look<'_> {
    fn on_request(
        self,
        request: &Request<()>,
        mut response: Response<()>,
    ) -> Result<Response<()>, ErrorResponse> {
        let station = station_of(request.uri().path());
        let offered = is_offered(request.headers());
        let is_taken = !offered || take_up(response.headers_mut());
        self.seen.set(if is_taken {
            Seen::Request { offered, station }
        } else {
            Seen::NoMemory
        });
        Ok(response)
    }
}

// Answers a request with the subprotocol, if there is memory for it.
fn take_up(headers: &mut HeaderMap) -> bool {
    headers
        .insert(
            HeaderName::from_static("sec-websocket-protocol"),
            HeaderValue::from_static("ocpp2.0.1"),
        )
        .is_ok()
}

// The name in a path of `/ocpp/` and a name.
fn station_of(path: &str) -> Option<Name>
    ensures { IsPathOf path.now result }
{
    match path.strip_prefix(PATH_START) {
        Some(name) => Name::new(name),
        None => None,
    }
}

// The part of a path where a station's name should be.
pub(crate) fn station_text(path: &str) -> &str {
    match path.strip_prefix(PATH_START) {
        Some(text) => text,
        None => path,
    }
}

// Returns whether one of the offered subprotocols is that of OCPP 2.0.1.
fn is_offered(headers: &HeaderMap) -> bool {
    for value in headers.get_all("sec-websocket-protocol") {
        if let Ok(text) = value.to_str() {
            if names_subprotocol(text) {
                return true;
            }
        }
    }
    false
}

// Returns whether a list with commas names the subprotocol.
fn names_subprotocol(list: &str) -> bool {
    list.split(',').any(|part| part.trim() == SUBPROTOCOL)
}

// A new pass of the station of this name.
fn enlist<J: Naming, R: Wait + Threads>(rt: &R, desk: &Desk<J>, name: &Name) -> Result<Pass, Why>
    ensures refused { IfErr result (λ why. IsRefusal desk.now.stations (Seen.Request true (Some name.now)) why) }
    ensures admitted { IfOk result (λ p. IsAdmitted desk.now.stations (Seen.Request true (Some name.now)) name.now p) }
{
    match desk.enlist(rt, name) {
        Ok(pass) => Ok(pass),
        Err(EnlistFault::UnknownStation) => Err(Why::UnknownStation),
        Err(EnlistFault::TooManyPasses) => Err(Why::TooManyPasses),
    }
}

// The name that a request asks for, or why it is refused whatever stations there are.
pub(crate) fn asked_of(seen: Seen) -> Result<Name, Why>
    ensures asked { IsAsked seen result }
    ensures lacks { IfErr result MayLackPass }
{
    match seen {
        Seen::Nothing => Err(Why::HandshakeFailed),
        Seen::NoMemory => Err(Why::OutOfMemory),
        Seen::Request { offered: false, .. } => Err(Why::NotOcpp),
        Seen::Request {
            offered: true,
            station: None,
        } => Err(Why::UnknownStation),
        Seen::Request {
            offered: true,
            station: Some(name),
        } => Ok(name),
    }
}

/// Lets a request in: returns a new pass of the station that it names, with that name. Else the error says
/// why not, the first of these that applies: no request was seen; there was no memory to take up the
/// subprotocol; the subprotocol is not offered; the path names no station of the desk; the station gave out
/// all its passes.
pub fn admit<J: Naming, R: Wait + Threads>(
    rt: &R,
    desk: &Desk<J>,
    seen: Seen,
) -> Result<(Name, Pass), Why>
    ensures refused { IfErr result (IsRefusal desk.now.stations seen) }
    ensures admitted { IfOk result (λ r. IsAdmitted desk.now.stations seen r.0 r.1) }
{
    let name = asked_of(seen)?;
    let pass = enlist(rt, desk, &name)?;
    Ok((name, pass))
}
