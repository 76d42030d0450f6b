//! Simulated stations: each sends one transaction and keeps the replies.
ghost use Rattle.std.specs.Prelude.{◌≡◌, ◌≤◌, ◌+◌, IfOk, OnOk, length};
ghost use Rattle.station_link.specs.Sim.{IsSimulated};

use http::{HeaderName, HeaderValue, Request};
use ledger_model::Moment;
use reading_decimal::moment_text;
use std::alloc::{AllocError, AllocFailed, Global};
use std::io::{Read, Write};
use std::marker::Model;
use std::random::RandomSource;
use tungstenite::handshake::client;
use tungstenite::{
    Error, HandshakeError, MaskKeys, Message, RandomKeys, WebSocket, WebSocketConfig,
};

// The second at which a simulated transaction begins, 2026-01-01T00:00:00Z, counted from 1970, and the
// seconds from one event to the next.
const FIRST_SECOND: u64 = 1_767_225_600;

const SECONDS_BETWEEN: u64 = 300;

// The register at the first event, and how far it rises from one event to the next, both in Wh.
const FIRST_WATT_HOURS: u64 = 1_000;

const RISE: u64 = 100;

// How many bytes one read of the stream asks for.
const READ_BYTES: usize = 4_096;

// How many messages it reads while it waits for a reply, or for the server's end.
const MAX_READS: u64 = 1_000_000;

/// Why a simulated station did not get all its replies.
#[derive(Clone, Copy, Debug)]
pub enum SimFault {
    /// The opening handshake was not finished.
    HandshakeFailed,
    /// A read of the stream failed, or the stream ended before a reply.
    ReadFault,
    /// A write to the stream failed.
    WriteFault,
    /// There was no memory.
    OutOfMemory,
}

impl From<AllocError> for SimFault {
    fn from(_error: AllocError) -> SimFault {
        SimFault::OutOfMemory
    }
}

impl<T: Drop> From<AllocFailed<T>> for SimFault {
    fn from(_error: AllocFailed<T>) -> SimFault {
        SimFault::OutOfMemory
    }
}

/// A simulated station: `CS-<number>`, with a transaction `SIM-<number>` of so many events at EVSE 1, five
/// minutes apart; the register rises by 100 Wh each time.
#[derive(Debug, Drop)]
pub struct SimStation {
    number: u16,
    events: u32,
}

impl Model for SimStation {
    ghost use Rattle.station_link.specs.Sim.{IsSimulated, Simulated};

    ghost Value = { Simulated };

    ghost view = { λ s. record { number = s.number; events = s.events } };

    ghost invariant = { λ s. IsSimulated s.number s.events };
}

impl SimStation {
    /// The station of this number, from 1 to 64, with so many events, from 2 to 64.
    pub fn new(number: u16, events: u32) -> Self
        requires { IsSimulated number events }
        ensures { result ≡ record { number = number; events = events } }
    {
        SimStation { number, events }
    }

    /// The texts that it sends, in order: the first event, the others from the last one down, and the first
    /// once more, all TransactionEventRequests (OCPP 2.0.1 Part 2, block E) with message ids from 1 on.
    pub fn texts(&self, alloc: Global) -> Result<Vec<String>, AllocError>
        ensures { IfOk result (λ texts. length texts.items ≡ self.now.events + 1) }
    {
        let mut texts = Vec::with_capacity(alloc, self.events as usize + 1)?;
        self.put_text(alloc, &mut texts, 1, 0)?;
        for back in 1..self.events {
            self.put_text(alloc, &mut texts, back + 1, self.events - back)?;
        }
        self.put_text(alloc, &mut texts, self.events + 1, 0)?;
        Ok(texts)
    }

    // Adds the message of this id with the event of this number.
    fn put_text(
        &self,
        alloc: Global,
        texts: &mut Vec<String>,
        id: u32,
        seq: u32,
    ) -> Result<(), AllocError>
        requires { seq ≤ 64 }
        ensures { OnOk result (length texts.new.items ≡ length texts.old.items + 1) }
    {
        let text = self.text(alloc, id, seq)?;
        texts.push(text)?;
        Ok(())
    }

    // The message of this id with the event of this number.
    fn text(&self, alloc: Global, id: u32, seq: u32) -> Result<String, AllocError>
        requires { seq ≤ 64 }
    {
        let at = moment_text(moment_of(seq));
        let event = event_part(alloc, self.kind(seq), at.as_str(), seq)?;
        let read = read_part(alloc, at.as_str(), seq)?;
        let number = self.number;
        format!(in alloc;
            "[2,\"{id}\",\"TransactionEvent\",{{{event},\"transactionInfo\":{{\"transactionId\":\"SIM-{number}\"}},\"meterValue\":{read},\"evse\":{{\"id\":1}}}}]"
        )
    }

    // The kind of the event of this number.
    fn kind(&self, seq: u32) -> &'static str {
        if seq == 0 {
            "Started"
        } else if seq == self.events - 1 {
            "Ended"
        } else {
            "Updated"
        }
    }

    /// Sends the texts over a stream to a server, each after the reply to the one before, and returns
    /// the replies in order. It may wait for the stream.
    pub fn run<R: RandomSource, S: Read + Write + Drop>(
        &self,
        rt: &R,
        alloc: Global,
        stream: S,
    ) -> Result<Vec<String>, SimFault>
        ensures { IfOk result (λ replies. length replies.items ≡ self.now.events + 1) }
    {
        let texts = self.texts(alloc)?;
        let mut socket = self.connect(rt, alloc, stream)?;
        let replies = ask_all(alloc, &mut socket, &texts)?;
        leave(&mut socket);
        Ok(replies)
    }

    // The socket behind the opening handshake, with masking keys of the system's random bytes.
    fn connect<'a, R: RandomSource, S: Read + Write + Drop>(
        &self,
        rt: &'a R,
        alloc: Global,
        stream: S,
    ) -> Result<WebSocket<S, RandomKeys<&'a R>>, SimFault> {
        let request = self.request(alloc)?;
        let nonce = nonce_of(rt)?;
        shake_hands(alloc, nonce, RandomKeys::new(rt), request, stream)
    }

    // The request that begins the handshake.
    fn request(&self, alloc: Global) -> Result<Request<()>, SimFault> {
        let number = self.number;
        let uri = format!(in alloc; "ws://127.0.0.1/ocpp/CS-{number}")?;
        match client::request_of(alloc, uri.as_str()) {
            Ok(request) => with_subprotocol(request),
            Err(_) => Err(SimFault::HandshakeFailed),
        }
    }
}

// The moment of the event of this number.
fn moment_of(seq: u32) -> Moment
    requires { seq ≤ 64 }
{
    let second = FIRST_SECOND + SECONDS_BETWEEN * seq as u64;
    match Moment::new(second * 1_000_000_000) {
        Some(moment) => moment,
        None => unreachable!(),
    }
}

// The members with an event's kind, moment and number.
fn event_part(alloc: Global, kind: &str, at: &str, seq: u32) -> Result<String, AllocError> {
    format!(in alloc;
        "\"eventType\":\"{kind}\",\"timestamp\":\"{at}\",\"triggerReason\":\"MeterValuePeriodic\",\"seqNo\":{seq}"
    )
}

// The meter values of the event of this number.
fn read_part(alloc: Global, at: &str, seq: u32) -> Result<String, AllocError>
    requires { seq ≤ 64 }
{
    let value = FIRST_WATT_HOURS + RISE * seq as u64;
    format!(in alloc; "[{{\"timestamp\":\"{at}\",\"sampledValue\":[{{\"value\":{value}}}]}}]")
}

// The request with the subprotocol of OCPP 2.0.1.
fn with_subprotocol(mut request: Request<()>) -> Result<Request<()>, SimFault> {
    let name = HeaderName::from_static("sec-websocket-protocol");
    let value = HeaderValue::from_static("ocpp2.0.1");
    match request.headers_mut().insert(name, value) {
        Ok(_) => Ok(request),
        Err(_) => Err(SimFault::OutOfMemory),
    }
}

// The random bytes for a handshake's key.
fn nonce_of<R: RandomSource>(rt: &R) -> Result<[u8; 16], SimFault> {
    let mut nonce = [0; 16];
    match rt.fill_bytes(&mut nonce) {
        Ok(()) => Ok(nonce),
        Err(_) => Err(SimFault::HandshakeFailed),
    }
}

// The socket behind the handshake that this request begins.
fn shake_hands<S: Read + Write + Drop, K: MaskKeys + Drop>(
    alloc: Global,
    nonce: [u8; 16],
    keys: K,
    request: Request<()>,
    stream: S,
) -> Result<WebSocket<S, K>, SimFault> {
    let config = WebSocketConfig::default().read_buffer_size(READ_BYTES);
    match client::start(alloc, nonce, keys, request, stream, Some(config)) {
        Ok(handshake) => match handshake.handshake() {
            Ok((socket, _response)) => Ok(socket),
            Err(HandshakeError::Failure(error)) => Err(handshake_fault(&error)),
            Err(HandshakeError::Interrupted(_handshake)) => Err(SimFault::HandshakeFailed),
        },
        Err(error) => Err(handshake_fault(&error)),
    }
}

// The fault of a handshake that failed.
fn handshake_fault(error: &Error) -> SimFault {
    match error {
        Error::OutOfMemory => SimFault::OutOfMemory,
        _ => SimFault::HandshakeFailed,
    }
}

// The replies to the texts, each sent after the reply to the one before.
fn ask_all<S: Read + Write + Drop, K: MaskKeys + Drop>(
    alloc: Global,
    socket: &mut WebSocket<S, K>,
    texts: &[String],
) -> Result<Vec<String>, SimFault>
    ensures { IfOk result (λ replies. length replies.items ≡ length texts.now) }
{
    let mut replies = Vec::with_capacity(alloc, texts.len())?;
    for text in texts {
        replies.push(ask(alloc, socket, text.as_str())?)?;
    }
    Ok(replies)
}

// Sends a text and waits for its reply.
fn ask<S: Read + Write + Drop, K: MaskKeys + Drop>(
    alloc: Global,
    socket: &mut WebSocket<S, K>,
    text: &str,
) -> Result<String, SimFault> {
    send(alloc, socket, text)?;
    for _ in 0..MAX_READS {
        if let Some(reply) = read_reply(alloc, socket)? {
            return Ok(reply);
        }
    }
    Err(SimFault::ReadFault)
}

// Sends a text.
fn send<S: Read + Write + Drop, K: MaskKeys + Drop>(
    alloc: Global,
    socket: &mut WebSocket<S, K>,
    text: &str,
) -> Result<(), SimFault> {
    match socket.send(Message::text(alloc, text)?) {
        Ok(()) => Ok(()),
        Err(Error::OutOfMemory) => Err(SimFault::OutOfMemory),
        Err(_) => Err(SimFault::WriteFault),
    }
}

// Reads a message, which may be a reply.
fn read_reply<S: Read + Write + Drop, K: MaskKeys + Drop>(
    alloc: Global,
    socket: &mut WebSocket<S, K>,
) -> Result<Option<String>, SimFault> {
    match socket.read() {
        Ok(message) => reply_of(alloc, message),
        Err(Error::OutOfMemory) => Err(SimFault::OutOfMemory),
        Err(_) => Err(SimFault::ReadFault),
    }
}

// The reply that a message is; a ping or a pong is none.
fn reply_of(alloc: Global, message: Message) -> Result<Option<String>, SimFault> {
    match message {
        Message::Text(reply) => Ok(Some(String::from_str(alloc, reply.as_str())?)),
        Message::Ping(_bytes) | Message::Pong(_bytes) => Ok(None),
        Message::Binary(_bytes) => Err(SimFault::ReadFault),
        Message::Close(_frame) => Err(SimFault::ReadFault),
    }
}

// Closes the connection and waits until the server has closed it too.
fn leave<S: Read + Write + Drop, K: MaskKeys + Drop>(socket: &mut WebSocket<S, K>) {
    if socket.close(None).is_err() {
        return;
    }
    for _ in 0..MAX_READS {
        if socket.read().is_err() {
            return;
        }
    }
}
