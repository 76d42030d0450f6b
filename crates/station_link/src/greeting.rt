//! The opening handshake of a live server, which gives out the passes of its sessions itself.
ghost use Rattle.std.specs.Prelude.{IfErr, IfOk};
ghost use Rattle.station_link.specs.Session.{MayLackPass};

use crate::ending::{Why, end_of_refusal};
use crate::request::{Look, Seen, asked_of, station_text};
use crate::session::{say_goodbye, shake_hands};
use arrayvec::ArrayString;
use http::{Request, Response};
use ledger_model::{MAX_NAME, Name};
use std::alloc::Global;
use std::cell::Cell;
use std::io::{Read, Write};
use tungstenite::handshake::server::ErrorResponse;
use tungstenite::{Callback, NoMask, WebSocket};

/// What a live server's handshake gives.
#[derive(Drop)]
pub struct Greeted<S> {
    /// The socket behind it.
    pub socket: WebSocket<S, NoMask>,
    /// The name of the station that it asks for, or why it is refused whatever stations there are.
    pub asked: Result<Name, Why>,
    /// The part of its path where the name should be: at most 48 characters, with `?` for each that no
    /// name may have.
    pub shown: ArrayString<MAX_NAME>,
}

// Notes what a handshake sees, and the part of its path where the name should be.
#[derive(Drop)]
struct LiveLook<'a> {
    look: Look<'a>,
    shown: &'a Cell<ArrayString<MAX_NAME>>,
}

impl Callback for LiveLook<'_> {
    fn on_request(
        self,
        request: &Request<()>,
        response: Response<()>,
    ) -> Result<Response<()>, ErrorResponse> {
        let LiveLook { look, shown } = self;
        shown.set(shown_text(station_text(request.uri().path())));
        look.on_request(request, response)
    }
}

// The text as an operator gets to see it.
fn shown_text(text: &str) -> ArrayString<MAX_NAME> {
    let mut shown = ArrayString::new();
    for character in text.chars().take(MAX_NAME) {
        let _ = shown.try_push(if is_name_character(character) {
            character
        } else {
            '?'
        });
    }
    shown
}

// Returns whether a name may have this character.
fn is_name_character(character: char) -> bool {
    character.is_ascii_alphanumeric() || "*-_=:+|@.".contains(character)
}

/// Answers the opening handshake of a live server's connection (RFC 6455).
pub fn greet<S: Read + Write + Drop>(alloc: Global, stream: S) -> Result<Greeted<S>, Why>
    ensures failed { IfErr result MayLackPass }
    ensures refused { IfOk result (λ g. IfErr g.asked MayLackPass) }
{
    let seen = Cell::new(Seen::Nothing);
    let shown = Cell::new(ArrayString::new());
    let look = LiveLook {
        look: Look { seen: &seen },
        shown: &shown,
    };
    let socket = shake_hands(alloc, stream, look)?;
    Ok(Greeted {
        socket,
        asked: asked_of(seen.into_inner()),
        shown: shown.into_inner(),
    })
}

/// Refuses a client by a close frame with the name of the cause as its reason, and ends.
pub fn refuse<S: Read + Write + Drop>(socket: &mut WebSocket<S, NoMask>, why: Why) {
    say_goodbye(socket, end_of_refusal(why).code, why.name());
}
