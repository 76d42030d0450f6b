//! The ports that a live server listens on, and their lines.
ghost use Rattle.std.{specs.Prelude.{ℕ, Option, OnOk}, specs.Io.KnownBytes.Appends};
ghost use Rattle.live_server.specs.Told.{ports};

use crate::acceptor::{Acceptor, Acceptors};
use crate::service::Live;
use running_desk::{ServiceFault, Sockets, listen, tell_port};
use std::io::Write;
use std::net::TcpListener;

impl Acceptors {
    // The listeners that are asked for, after their ports are written; that of stations may be there
    // already.
    pub(crate) fn open<R: Sockets, W: Write>(
        rt: &R,
        listener: Option<TcpListener>,
        live: Live,
        output: &mut W,
    ) -> Result<Self, ServiceFault>
        ensures { OnOk result ((port : ℕ) × (browsers : Option ℕ) × Appends (W.contents output.old) (W.contents output.new) (ports port browsers)) }
    {
        let stations = match listener {
            Some(listener) => listener,
            None => listen(rt, live.port)?,
        };
        let browsers = match live.board_port {
            Some(port) => Some(Acceptor::new(listen(rt, port)?)),
            None => None,
        };
        let stations = Acceptor::new(stations);
        let acceptors = Acceptors { stations, browsers };
        acceptors.tell(output)?;
        Ok(acceptors)
    }

    // Writes the lines of the ports.
    fn tell<W: Write>(&self, output: &mut W) -> Result<(), ServiceFault>
        ensures { OnOk result ((port : ℕ) × (browsers : Option ℕ) × Appends (W.contents output.old) (W.contents output.new) (ports port browsers)) }
    {
        tell_port(&self.stations.listener, "listening", output)?;
        match &self.browsers {
            Some(acceptor) => tell_port(&acceptor.listener, "boards", output),
            None => Ok(()),
        }
    }
}
