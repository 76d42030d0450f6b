use gathered_input::Readiness;
use std::io::{BufRead, Write};
use std::net::{Net, TcpListener, TcpStream};
use std::sync::Wait;
use std::thread::Threads;
use std::time::Clock;

/// The sockets of the system.
pub trait Sockets: Net<Listener = TcpListener, Stream = TcpStream> {}

impl<R: Net<Listener = TcpListener, Stream = TcpStream>> Sockets for R {}

/// What a server takes from the machine that it runs on: memory, threads, locks, the clock and sockets.
pub trait Host: AllocGlobal + Threads + Wait + Clock + Sync + Sockets {}

impl<R: AllocGlobal + Threads + Wait + Clock + Sync + Sockets> Host for R {}

/// An input of lines that may have to be waited for.
pub trait Input: BufRead + Readiness {}

impl<I: BufRead + Readiness> Input for I {}

/// An output that a thread of a server may write.
pub trait Output: Write + Send + Drop {}

impl<W: Write + Send + Drop> Output for W {}
