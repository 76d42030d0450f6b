//! A session: one connection of a station, from its handshake to its end.
ghost use Rattle.std.specs.Prelude.{◌≡◌, ◌≢◌, ◌≤◌, ◌<◌, ◌+◌, ◌++◌, [], All, IsNone, IsSome, IfErr, IfOk, IfSome, None, Some, OnErr, OnOk, length, slice_get, true, vec_capacity, vec_len};
ghost use Rattle.site_desk.specs.declared.roster.StationPlace.{StationPlace};
ghost use Rattle.station_link.{specs.declared.ending.Why.Why, specs.Answer.reply_of, specs.Attended.{IsAnswered, IsAttended, IsSendFault, Point, Takes, if_seen, point}, specs.Exchange.{Comes, Sends, Waits}, specs.Session.{MayEnd, MayHavePass, MayLackPass, most_messages}};

use crate::answer::{Replied, put_answer};
use crate::attendant::{Attendant, Nobody};
use crate::delivers::Delivers;
use crate::ending::{Ending, Why, end_of_read, end_of_refusal};
use crate::moment::{MomentSource, present};
use crate::request::{Look, Seen, admit};
use arrayvec::ArrayString;
use ledger_model::Name;
use site_book::Naming;
use site_desk::{Desk, Gate, Pass};
use std::alloc::Global;
use std::cell::Cell;
use std::io::{ErrorKind, Read, Write};
use std::sync::Wait;
use std::thread::Threads;
use std::time::Clock;
use tungstenite::handshake::server;
use tungstenite::{
    Callback, CloseCode, CloseFrame, Error, HandshakeError, Message, NoMask, Utf8Bytes, WebSocket,
    WebSocketConfig,
};

/// How many messages a session takes (this product's profile).
pub const MAX_MESSAGES: u64 = 1_000_000;

// How many bytes a message may have before the session ends: twice the longest text that is read, so a
// text that is a little too long still gets its reply.
const MAX_SOCKET_BYTES: usize = 524_288;

// How many bytes one read of the stream asks for.
const READ_BYTES: usize = 4_096;

// How many messages are read after a close frame, so the peer gets its code before the stream ends.
const MAX_LAST_READS: u32 = 64;

/// A client that was let in: its socket behind the handshake, the name of its station, and a pass of that station.
#[derive(Drop)]
pub struct Client<'a, S: Read + Write + Drop> {
    /// The socket.
    pub socket: &'a mut WebSocket<S, NoMask>,
    /// The station's name.
    pub name: &'a Name,
    /// The pass.
    pub pass: Pass,
}

/// How a session ended.
#[derive(Drop)]
pub struct SessionEnd<M> {
    /// Why it ended.
    pub why: Why,
    /// The pass of its station, if it got one.
    pub pass: Option<Pass>,
    /// How many messages it took, up to a million, including the one, or the failed read, that ended
    /// it.
    pub messages: u64,
    /// How many of them were texts, with a reply or without one.
    pub texts: u64,
    /// What the desk returned with the answers, in their order.
    pub seen: Vec<M>,
}

// The end of a session that got no pass.
fn refused<M>(alloc: Global, why: Why) -> SessionEnd<M>
    ensures why { result.why ≡ why }
    ensures pass { result.pass ≡ None }
    ensures messages { result.messages ≡ 0 }
{
    SessionEnd {
        why,
        pass: None,
        messages: 0,
        texts: 0,
        seen: Vec::new(alloc),
    }
}

/// Serves one connection until it ends: the opening handshake of a path `/ocpp/<station>` with the
/// subprotocol `ocpp2.0.1` (RFC 6455; OCPP 2.0.1 Part 4), then a session ([`serve_session`]) that nobody attends.
/// It may wait for locks and for the stream.
pub fn serve_connection<
    J: Naming + Send + Sync,
    R: Wait + Threads + Clock,
    S: Read + Write + Drop,
    G: Gate,
    C: MomentSource,
>(rt: &R, alloc: Global, stream: S, desk: &Desk<J>, gate: &G, clock: &mut C) -> SessionEnd<()>
    ensures lacks { IsNone result.pass → MayLackPass result.why }
    ensures has { IsSome result.pass → MayHavePass result.why }
    ensures station { IfSome result.pass (λ p. p.station < length desk.now.stations) }
    ensures few { IfSome result.pass (λ p. p.changes ≤ result.messages) }
    ensures most { result.messages ≤ most_messages }
    ensures spent { result.why ≡ Why.MessagesSpent → result.messages ≡ most_messages }
{
    let seen = Cell::new(Seen::Nothing);
    let mut socket = match shake_hands(alloc, stream, Look { seen: &seen }) {
        Ok(socket) => socket,
        Err(why) => return refused(alloc, why),
    };
    match admit(rt, desk, seen.into_inner()) {
        Ok((name, pass)) => {
            let client = Client {
                socket: &mut socket,
                name: &name,
                pass,
            };
            serve_session(rt, alloc, client, desk, gate, clock, &Nobody)
        }
        Err(why) => {
            say_goodbye(&mut socket, end_of_refusal(why).code, "");
            refused(alloc, why)
        }
    }
}

/// Serves a session that was let in with a pass, until it ends or is no longer wanted: up to a million messages. It
/// answers each text as [`answer_text`](crate::answer_text) does, at the clock's moment. After it sent the reply, or
/// decided that there is none, it calls `gate.after` with the text's number, counted from 1. Ping and Pong count only
/// as messages. A reply that reports OutOfMemory does not end the session. What was accepted stays accepted if its
/// reply can't be sent. At the end it calls the attendant's `leaves`, and then sends the close frame. It gives the pass
/// back whatever ends the session, also a lack of memory.
pub fn serve_session<
    D: Delivers,
    R: Wait + Clock,
    S: Read + Write + Drop,
    G: Gate,
    C: MomentSource,
    A: Attendant,
>(
    rt: &R,
    alloc: Global,
    client: Client<'_, S>,
    desk: &D,
    gate: &G,
    clock: &mut C,
    attendant: &A,
) -> SessionEnd<D::Seen>
    ensures attended { IfSome result.pass (λ p. (last : Point D.Seen C S) × (last.pass ≡ p) × (last.seen ≡ result.seen.items)
        × IsAttended D.gives C.reads S.remaining S.contents (D.stations desk.now)
        result.why result.texts (point client.entry.pass clock.old client.entry.socket.now []) last) }
    ensures answered { (at : StationPlace) → slice_get (D.stations desk.now) client.entry.pass.station ≡ Some at → All (IsAnswered D.gives) result.seen.items }
    ensures given_back { IsSome result.pass }
    ensures why { MayEnd (A.dismisses attendant.now) result.why }
    ensures station { IfSome result.pass (λ p. p.station ≡ client.entry.pass.station) }
    ensures few { IfSome result.pass (λ p. p.changes ≤ client.entry.pass.changes + result.messages) }
    ensures texts { result.texts ≤ result.messages }
    ensures most { result.messages ≤ most_messages }
    ensures spent { result.why ≡ Why.MessagesSpent → result.messages ≡ most_messages }
{
    let Client {
        socket,
        name,
        mut pass,
    } = client;
    let ended = answer_all(
        rt, alloc, socket, desk, name, &mut pass, gate, clock, attendant,
    );
    attendant.leaves();
    let why = ended.end.why;
    say_goodbye(socket, ended.end.code, attendant.reason(why));
    SessionEnd {
        why,
        pass: Some(pass),
        messages: ended.messages,
        texts: ended.texts,
        seen: ended.seen,
    }
}

// The socket behind a handshake. The handshake's look notes what it saw.
pub(crate) fn shake_hands<S: Read + Write + Drop, L: Callback + Drop>(
    alloc: Global,
    stream: S,
    look: L,
) -> Result<WebSocket<S, NoMask>, Why>
    ensures { IfErr result MayLackPass }
{
    let config = WebSocketConfig::default()
        .read_buffer_size(READ_BYTES)
        .max_message_size(Some(MAX_SOCKET_BYTES))
        .max_frame_size(Some(MAX_SOCKET_BYTES));
    match server::start(alloc, stream, look, Some(config)).handshake() {
        Ok(socket) => Ok(socket),
        Err(HandshakeError::Failure(Error::OutOfMemory)) => Err(Why::OutOfMemory),
        Err(_) => Err(Why::HandshakeFailed),
    }
}

// The result of all messages: how the session ends, how many messages it took, the last one included, how many texts,
// and what the desk returned with the answers.
#[derive(Drop)]
struct Ended<M> {
    end: Ending,
    messages: u64,
    texts: u64,
    seen: Vec<M>,
}

// What a session keeps from text to text: the buffer for replies, and what the desk returned with the answers.
#[derive(Drop)]
struct Kept<M> {
    reply: ArrayString<512>,
    seen: Vec<M>,
}

// What a session keeps before its first message, with room for as many answers as it can give; none if there is no
// memory.
fn open_kept<M>(alloc: Global) -> Option<Kept<M>>
    ensures none { IfSome result (λ k. k.seen.items ≡ []) }
    ensures len { IfSome result (λ k. vec_len k.seen ≡ 0) }
    ensures room { IfSome result (λ k. vec_capacity k.seen ≡ most_messages) }
{
    match Vec::with_capacity(alloc, MAX_MESSAGES as usize) {
        Ok(seen) => Some(Kept {
            reply: ArrayString::new(),
            seen,
        }),
        Err(_) => None,
    }
}

// Answers message after message until the session ends.
fn answer_all<
    D: Delivers,
    R: Wait + Clock,
    S: Read + Write + Drop,
    G: Gate,
    C: MomentSource,
    A: Attendant,
>(
    rt: &R,
    alloc: Global,
    socket: &mut WebSocket<S, NoMask>,
    desk: &D,
    name: &Name,
    pass: &mut Pass,
    gate: &G,
    clock: &mut C,
    attendant: &A,
) -> Ended<D::Seen>
    ensures attended { IsAttended D.gives C.reads S.remaining S.contents (D.stations desk.now) result.end.why result.texts
        (point pass.old clock.old socket.old []) (point pass.new clock.new socket.new result.seen.items) }
    ensures why { MayEnd (A.dismisses attendant.now) result.end.why }
    ensures station { pass.new.station ≡ pass.old.station }
    ensures few { pass.new.changes ≤ pass.old.changes + result.messages }
    ensures texts { result.texts ≤ result.messages }
    ensures most { result.messages ≤ most_messages }
    ensures spent { result.end.why ≡ Why.MessagesSpent → result.messages ≡ most_messages }
{
    let mut kept = match open_kept(alloc) {
        Some(kept) => kept,
        None => return end_at_once(alloc),
    };
    let mut texts = 0;
    for turn in 0..MAX_MESSAGES {
        let message = match await_message(rt, socket, attendant) {
            Ok(message) => message,
            Err(end) => return end_after(end, turn + 1, texts, kept.seen),
        };
        let taken = answer_message(
            rt, alloc, socket, desk, pass, gate, clock, message, &mut kept,
        );
        match taken {
            Ok(is_text) => {
                if is_text {
                    texts += 1;
                    gate.after(rt, name, texts);
                }
            }
            Err(end) => return end_after(end, turn + 1, texts, kept.seen),
        }
    }
    let end = Ending::told(Why::MessagesSpent, CloseCode::Error);
    end_after(end, MAX_MESSAGES, texts, kept.seen)
}

// The end of a session that found no memory before its first message.
fn end_at_once<M>(alloc: Global) -> Ended<M>
    ensures why { result.end.why ≡ Why.OutOfMemory }
    ensures messages { result.messages ≡ 0 }
    ensures texts { result.texts ≡ 0 }
    ensures seen { result.seen.items ≡ [] }
{
    Ended {
        end: Ending::untold(Why::OutOfMemory),
        messages: 0,
        texts: 0,
        seen: Vec::new(alloc),
    }
}

// The end of a session after this many messages, with this many texts among them, and with what the desk returned.
fn end_after<M>(end: Ending, messages: u64, texts: u64, seen: Vec<M>) -> Ended<M>
    ensures { result ≡ record { end = end; messages = messages; texts = texts; seen = seen } }
{
    Ended {
        end,
        messages,
        texts,
        seen,
    }
}

// Waits for the next message as long as the session is wanted. It first sends what is waiting, so a fault of
// that is no fault of the read.
fn await_message<R: Wait, S: Read + Write + Drop, A: Attendant>(
    rt: &R,
    socket: &mut WebSocket<S, NoMask>,
    attendant: &A,
) -> Result<Message, Ending>
    ensures comes { IfOk result (λ message. Comes S.remaining S.contents socket.old message socket.new) }
    ensures waits { OnErr result (Waits S.remaining S.contents socket.old socket.new) }
    ensures why { IfErr result (λ end. MayEnd (A.dismisses attendant.now) end.why) }
    ensures unspent { IfErr result (λ end. end.why ≢ Why.MessagesSpent) }
{
    for _ in rt.forever() {
        if let Some(why) = attendant.dismissal() {
            return Err(Ending::told(why, CloseCode::Away));
        }
        if socket.flush().is_err() {
            return Err(Ending::untold(Why::WriteFault));
        }
        match socket.read() {
            Ok(message) => return Ok(message),
            Err(error) => {
                if !attendant.is_patient() || !is_tick(&error) {
                    return Err(end_of_read(&error));
                }
            }
        }
    }
    unreachable!()
}

// Returns whether a read only gave up waiting, and may go on.
fn is_tick(error: &Error) -> bool {
    match error {
        Error::Io(error) => error.kind() == ErrorKind::WouldBlock,
        _ => false,
    }
}

// Answers a message that was read, and returns whether it was a text. What the desk returned with the answer is added;
// there is room for it.
fn answer_message<D: Delivers, R: Wait + Clock, S: Read + Write + Drop, G: Gate, C: MomentSource>(
    rt: &R,
    alloc: Global,
    socket: &mut WebSocket<S, NoMask>,
    desk: &D,
    pass: &mut Pass,
    gate: &G,
    clock: &mut C,
    message: Message,
    kept: &mut Kept<D::Seen>,
) -> Result<bool, Ending>
    requires room { vec_len kept.old.seen < vec_capacity kept.old.seen }
    ensures taken { Takes D.gives C.reads S.remaining S.contents (D.stations desk.now) message result
        (point pass.old clock.old socket.old kept.old.seen.items) (point pass.new clock.new socket.new kept.new.seen.items) }
    ensures room { vec_capacity kept.new.seen ≡ vec_capacity kept.old.seen }
    ensures length { vec_len kept.new.seen ≤ vec_len kept.old.seen + 1 }
    ensures has { IfErr result (λ end. MayHavePass end.why) }
    ensures unspent { IfErr result (λ end. end.why ≢ Why.MessagesSpent) }
    ensures station { pass.new.station ≡ pass.old.station }
    ensures one { pass.new.changes ≤ pass.old.changes + 1 }
{
    match message {
        Message::Text(text) => {
            let now = present(clock);
            let text = text.as_str();
            let Replied {
                has_reply,
                outcome: _,
                seen: own,
                memory: _,
            } = put_answer(desk, rt, alloc, pass, text, now, gate, &mut kept.reply);
            keep(&mut kept.seen, own);
            match send_answer(alloc, socket, has_reply, &kept.reply) {
                Ok(()) => Ok(true),
                Err(end) => Err(end),
            }
        }
        Message::Ping(_bytes) | Message::Pong(_bytes) => Ok(false),
        Message::Binary(_bytes) => Err(Ending::told(Why::BinaryMessage, CloseCode::Unsupported)),
        Message::Close(_frame) => {
            let _ = socket.flush();
            Err(Ending::untold(Why::PeerClosed))
        }
    }
}

// Adds what the desk returned with an answer, if it returned anything.
fn keep<M: Drop>(seen: &mut Vec<M>, own: Option<M>)
    requires room { vec_len seen.old < vec_capacity seen.old }
    ensures items { seen.new.items ≡ seen.old.items ++ if_seen own }
    ensures room { vec_capacity seen.new ≡ vec_capacity seen.old }
    ensures length { vec_len seen.new ≤ vec_len seen.old + 1 }
{
    if let Some(one) = own {
        seen.push_reserved(one);
    }
}

// Sends the reply to a text, if it has one.
fn send_answer<S: Read + Write + Drop>(
    alloc: Global,
    socket: &mut WebSocket<S, NoMask>,
    has_reply: bool,
    reply: &ArrayString<512>,
) -> Result<(), Ending>
    ensures sent { OnOk result (Sends S.contents socket.old (reply_of has_reply reply.now.bytes) socket.new) }
    ensures fault { IfErr result (λ end. (has_reply ≡ true) × IsSendFault end.why) }
    ensures has { IfErr result (λ end. MayHavePass end.why) }
    ensures unspent { IfErr result (λ end. end.why ≢ Why.MessagesSpent) }
{
    if has_reply {
        send_reply(alloc, socket, reply.as_str())
    } else {
        Ok(())
    }
}

// Sends a reply.
fn send_reply<S: Read + Write + Drop>(
    alloc: Global,
    socket: &mut WebSocket<S, NoMask>,
    reply: &str,
) -> Result<(), Ending>
    ensures sent { OnOk result (Sends S.contents socket.old (Some reply.now) socket.new) }
    ensures fault { IfErr result (λ end. IsSendFault end.why) }
    ensures has { IfErr result (λ end. MayHavePass end.why) }
    ensures unspent { IfErr result (λ end. end.why ≢ Why.MessagesSpent) }
{
    let Ok(message) = Message::text(alloc, reply) else {
        return Err(Ending::untold(Why::OutOfMemory));
    };
    match socket.send(message) {
        Ok(()) => Ok(()),
        Err(Error::OutOfMemory) => Err(Ending::untold(Why::OutOfMemory)),
        Err(_) => Err(Ending::untold(Why::WriteFault)),
    }
}

// Sends a close frame with this reason, if the session ends with a code. Then it reads what the peer had sent
// before it got that frame, since unread bytes would reset the connection.
pub(crate) fn say_goodbye<S: Read + Write + Drop>(
    socket: &mut WebSocket<S, NoMask>,
    code: Option<CloseCode>,
    reason: &'static str,
) {
    let Some(code) = code else {
        return;
    };
    let frame = CloseFrame {
        code,
        reason: Utf8Bytes::from_static(reason),
    };
    if socket.close(Some(frame)).is_err() {
        return;
    }
    for _ in 0..MAX_LAST_READS {
        if socket.read().is_err() {
            return;
        }
    }
}
