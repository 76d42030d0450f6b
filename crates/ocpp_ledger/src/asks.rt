//! What a message asks a ledger for.
ghost use Rattle.std.{specs.Prelude.{◌≡◌, ◌≢◌, ◌<◌, ◌≤◌, length, take}, specs.Str.IsUtf8};
ghost use Rattle.ledger_model.specs.Moment.{IsMoment};
ghost use Rattle.ocpp_ledger.specs.Asks.{IsEventOf};
ghost use Rattle.transaction_event.specs.Message.{Ready, Silence, message};

use arrayvec::ArrayString;
use ledger_model::Moment;
use std::alloc::Global;
use transaction_event::{Asked, read_message};

/// The message is an answer of the station: it gets no reply.
pub const OCPP_MESSAGE_SILENT: u32 = 0;

/// The message has a ready reply, which no ledger changes; it is at the front of the buffer.
pub const OCPP_MESSAGE_REPLY: u32 = 1;

/// The message delivers an event; the id of its transaction, as boards show it, is at the front of the buffer.
pub const OCPP_MESSAGE_EVENT: u32 = 2;

/// The message is no UTF-8, the moment is outside the years 2000 to 2099, or the buffer has less than 512 bytes.
pub const OCPP_MESSAGE_MISTAKEN: u32 = 3;

/// There was no memory.
pub const OCPP_MESSAGE_NO_MEMORY: u32 = 4;

/// Says what a message asks for at a moment, in nanoseconds since 1970: silence, a ready reply, or the delivery of an
/// event of a transaction under a sequence number. `used` is how many bytes of the buffer say so.
#[unsafe(no_mangle)]
pub extern "C" fn ocpp_message_asks(
    alloc: Global,
    bytes: &[u8],
    now: u64,
    text: &mut [u8],
    used: &mut usize,
    seq: &mut u32,
) -> u32
    ensures silent { result ≡ OCPP_MESSAGE_SILENT → message bytes.now now ≡ Silence }
    ensures reply { result ≡ OCPP_MESSAGE_REPLY → message bytes.now now ≡ Ready (take used.new text.new) }
    ensures event { result ≡ OCPP_MESSAGE_EVENT → IsEventOf (message bytes.now now) (take used.new text.new) seq.new }
    ensures mistaken { IsUtf8 bytes.now → IsMoment now → 512 ≤ length text.old → result ≢ OCPP_MESSAGE_MISTAKEN }
    ensures within { used.new ≤ length text.old }
    ensures statuses { result ≤ OCPP_MESSAGE_NO_MEMORY }
{
    *used = 0;
    let (Ok(message), Some(moment)) = (str::from_utf8(bytes), Moment::new(now)) else {
        return OCPP_MESSAGE_MISTAKEN;
    };
    let mut reply = ArrayString::new();
    match read_message(alloc, message, moment, &mut reply) {
        Asked::Silent => OCPP_MESSAGE_SILENT,
        Asked::Reply { memory: true } => OCPP_MESSAGE_NO_MEMORY,
        Asked::Reply { memory: false } => put(reply.as_bytes(), OCPP_MESSAGE_REPLY, text, used),
        Asked::Event(delivery) => {
            *seq = delivery.key.seq();
            put(
                delivery.key.tx().text().as_bytes(),
                OCPP_MESSAGE_EVENT,
                text,
                used,
            )
        }
    }
}

// Puts these bytes at the front of a buffer, and answers with this status, if there is room for them.
fn put(bytes: &[u8], status: u32, text: &mut [u8], used: &mut usize) -> u32
    requires none { used.old ≡ 0 }
    requires known { status < OCPP_MESSAGE_MISTAKEN }
    ensures fits { length bytes.now ≤ length text.old → result ≡ status }
    ensures put { result ≡ status → take used.new text.new ≡ bytes.now }
    ensures other { result ≢ status → result ≡ OCPP_MESSAGE_MISTAKEN }
    ensures within { used.new ≤ length text.old }
{
    if text.len() < bytes.len() {
        return OCPP_MESSAGE_MISTAKEN;
    }
    text[..bytes.len()].copy_from_slice(bytes);
    *used = bytes.len();
    status
}
