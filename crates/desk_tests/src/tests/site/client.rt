use std::alloc::Global;
use std::io::{Read, Write};
use std::net::{Net, SocketAddr, TcpListener, TcpStream};

// The requests of A's session and of B's.
pub(super) const A: &[u8] =
    b"GET /ocpp/A HTTP/1.1\r\nHost: h\r\nConnection: Upgrade\r\nUpgrade: websocket\r\nSec-WebSocket-Version: 13\r\nSec-WebSocket-Key: dGhlIHNhbXBsZSBub25jZQ==\r\nSec-WebSocket-Protocol: ocpp2.0.1\r\n\r\n";

pub(super) const B: &[u8] =
    b"GET /ocpp/B HTTP/1.1\r\nHost: h\r\nConnection: Upgrade\r\nUpgrade: websocket\r\nSec-WebSocket-Version: 13\r\nSec-WebSocket-Key: dGhlIHNhbXBsZSBub25jZQ==\r\nSec-WebSocket-Protocol: ocpp2.0.1\r\n\r\n";

// A text message with transaction T1's first event, masked with zeros (RFC 6455 section 5.2), and its reply.
const EVENT: &[u8] =
    b"\x81\xfe\x01\x01\0\0\0\0[2,\"1\",\"TransactionEvent\",{\"eventType\":\"Started\",\"timestamp\":\"2026-03-01T10:00:00Z\",\"triggerReason\":\"MeterValuePeriodic\",\"seqNo\":0,\"transactionInfo\":{\"transactionId\":\"T1\"},\"meterValue\":[{\"timestamp\":\"2026-03-01T10:00:00Z\",\"sampledValue\":[{\"value\":1000}]}]}]";

const REPLY: &[u8] = b"\x81\x0a[3,\"1\",{}]";

// A close frame with code 1000, and the server's.
const CLOSE: &[u8] = b"\x88\x82\0\0\0\0\x03\xe8";

const CLOSED: &[u8] = b"\x88\x02\x03\xe8";

// Sends bytes, and returns whether the bytes that come then end like this before the stream ends.
fn is_answered(alloc: Global, stream: &mut TcpStream, sent: &[u8], end: &[u8]) -> Option<bool> {
    stream.write_all(sent).ok()?;
    let mut read = Vec::new(alloc);
    let mut byte = [0];
    for _ in 0..1_024 {
        if stream.read(&mut byte).ok()? == 0 {
            return Some(false);
        }
        read.push(byte[0]).ok()?;
        if read.as_slice().ends_with(end) {
            return Some(true);
        }
    }
    Some(false)
}

// A whole session with a request: the first event, and the close. `None` if the stream fails, else whether all
// was answered.
pub(super) fn sends_one<R: Net<Listener = TcpListener, Stream = TcpStream>>(
    rt: &R,
    alloc: Global,
    address: SocketAddr,
    request: &[u8],
) -> Option<bool> {
    let mut stream = TcpStream::connect(rt, address).ok()?;
    for (sent, end) in [
        (request, b"\r\n\r\n".as_slice()),
        (EVENT, REPLY),
        (CLOSE, CLOSED),
    ] {
        if !is_answered(alloc, &mut stream, sent, end)? {
            return Some(false);
        }
    }
    Some(true)
}
