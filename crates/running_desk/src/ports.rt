//! The port of 127.0.0.1 that a server listens on.
ghost use Rattle.std.{specs.Prelude.{◌≡◌, ◌≤◌, ℕ, OnOk, length}, specs.Io.KnownBytes.Appends};
ghost use Rattle.running_desk.specs.Ports.{at_port};

use crate::fault::ServiceFault;
use crate::host::Sockets;
use arrayvec::ArrayString;
use board_report::write_out;
use itoa::Buffer;
use std::io::Write;
use std::net::{Ipv4Addr, SocketAddr, TcpListener};

/// A listener on this port of 127.0.0.1; for 0 the system chooses one.
pub fn listen<R: Sockets>(rt: &R, port: u16) -> Result<TcpListener, ServiceFault> {
    match TcpListener::bind(rt, (Ipv4Addr::LOCALHOST, port)) {
        Ok(listener) => Ok(listener),
        Err(error) => Err(ServiceFault::ListenFailed(port, error.raw_os_error())),
    }
}

/// Where it listens.
pub fn address_of(listener: &TcpListener) -> Result<SocketAddr, ServiceFault> {
    match listener.local_addr() {
        Ok(address) => Ok(address),
        Err(error) => Err(ServiceFault::ListenFailed(0, error.raw_os_error())),
    }
}

/// Writes the line `<word> 127.0.0.1:<port>` of a listener; the word has at most 9 bytes.
pub fn tell_port<W: Write>(
    listener: &TcpListener,
    word: &str,
    output: &mut W,
) -> Result<(), ServiceFault>
    requires { length word.now ≤ 9 }
    ensures { OnOk result ((port : ℕ) × Appends (W.contents output.old) (W.contents output.new) (at_port word.now port)) }
{
    let line = port_line(word, address_of(listener)?.port());
    write_out(output, line.as_str().as_bytes())?;
    Ok(())
}

// The line of a word and a port.
fn port_line(word: &str, port: u16) -> ArrayString<32>
    requires { length word.now ≤ 9 }
    ensures { result.bytes ≡ at_port word.now port }
{
    let mut line = ArrayString::new();
    line.push_str(word);
    line.push_str(" 127.0.0.1:");
    line.push_str(Buffer::new().format(port));
    line.push_str("\n");
    line
}
