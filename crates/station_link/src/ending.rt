//! How sessions end.
ghost use Rattle.std.specs.Prelude.{◌≡◌, ◌≢◌, Some, None};
ghost use Rattle.station_link.{specs.declared.ending.Why.Why, specs.Session.MayHavePass};

use tungstenite::{CloseCode, Error};
use websocket::error::ProtocolError;

/// Why a session ended.
#[derive(Clone, Copy)]
pub enum Why {
    /// The station closed the session, or its stream ended.
    PeerClosed,
    /// A read of the stream failed, or its bytes are no message: too long (closed with code 1009), no UTF-8
    /// (1007), or against the protocol of RFC 6455 (1002).
    ReadFault,
    /// A write to the stream failed.
    WriteFault,
    /// The opening handshake was not finished.
    HandshakeFailed,
    /// The path names no station of the desk (closed with code 1008).
    UnknownStation,
    /// The client does not offer the subprotocol of OCPP 2.0.1 (closed with code 1002).
    NotOcpp,
    /// A binary message came (closed with code 1003).
    BinaryMessage,
    /// The socket found no memory; no close frame is sent.
    OutOfMemory,
    /// The session took a million messages (closed with code 1011).
    MessagesSpent,
    /// The station gave out as many passes as it may (closed with code 1011).
    TooManyPasses,
    /// A third session of its station began at a live server, and this was the oldest (closed with code 1001).
    Replaced,
    /// The live server closes (closed with code 1001).
    ServerCloses,
}

impl Why {
    /// Its name, as a live server prints it and as the reason in the close frame.
    pub fn name(self) -> &'static str {
        match self {
            Why::PeerClosed => "PeerClosed",
            Why::ReadFault => "ReadFault",
            Why::WriteFault => "WriteFault",
            Why::HandshakeFailed => "HandshakeFailed",
            Why::UnknownStation => "UnknownStation",
            Why::NotOcpp => "NotOcpp",
            Why::BinaryMessage => "BinaryMessage",
            Why::OutOfMemory => "OutOfMemory",
            Why::MessagesSpent => "MessagesSpent",
            Why::TooManyPasses => "TooManyPasses",
            Why::Replaced => "Replaced",
            Why::ServerCloses => "ServerCloses",
        }
    }
}

/// How a session ends: why, and the code of its close frame, if it sends one (RFC 6455).
#[derive(Clone, Copy)]
pub struct Ending {
    pub(crate) why: Why,
    pub(crate) code: Option<CloseCode>,
}

impl Ending {
    // An end with a close frame.
    pub(crate) fn told(why: Why, code: CloseCode) -> Ending
        ensures why { result.why ≡ why }
        ensures code { result.code ≡ Some code }
    {
        Ending {
            why,
            code: Some(code),
        }
    }

    // An end without one.
    pub(crate) fn untold(why: Why) -> Ending
        ensures why { result.why ≡ why }
        ensures code { result.code ≡ None }
    {
        Ending { why, code: None }
    }
}

// How a session ends if a read of its socket fails.
pub(crate) fn end_of_read(error: &Error) -> Ending
    ensures has { MayHavePass result.why }
    ensures unspent { result.why ≢ Why.MessagesSpent }
{
    match error {
        Error::ConnectionClosed | Error::Protocol(ProtocolError::ResetWithoutClosingHandshake) => {
            Ending::untold(Why::PeerClosed)
        }
        Error::OutOfMemory => Ending::untold(Why::OutOfMemory),
        Error::Capacity(_) => Ending::told(Why::ReadFault, CloseCode::Size),
        Error::Utf8 => Ending::told(Why::ReadFault, CloseCode::Invalid),
        Error::Protocol(_) => Ending::told(Why::ReadFault, CloseCode::Protocol),
        _ => Ending::untold(Why::ReadFault),
    }
}

// How a session ends that got no pass.
pub(crate) fn end_of_refusal(why: Why) -> Ending
    ensures { result.why ≡ why }
{
    match why {
        Why::NotOcpp => Ending::told(why, CloseCode::Protocol),
        Why::UnknownStation => Ending::told(why, CloseCode::Policy),
        Why::TooManyPasses => Ending::told(why, CloseCode::Error),
        _ => Ending::untold(why),
    }
}
