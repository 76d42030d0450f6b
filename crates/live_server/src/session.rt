//! A worker's connections, from accept to end.
ghost use Rattle.std.specs.Prelude.{All};
ghost use Rattle.site_desk.specs.Roster.{IsNamed};
ghost use Rattle.station_link.specs.Attended.{IsAnswered};

use crate::acceptor::Acceptor;
use crate::connection::{Connection, ConnectionStream, Patience};
use crate::near_limits::LimitObserver;
use crate::shared::Shared;
use arrayvec::ArrayString;
use ledger_model::Name;
use running_desk::{Serves, SystemMoments};
use site_desk::Pass;
use station_link::{Attendant, Client, Greeted, SessionEnd, greet, refuse, serve_session};
use std::cell::Cell;
use std::io::Write;
use std::net::TcpStream;
use std::sync::Wait;
use std::sync::atomic::AtomicBool;
use std::thread::Threads;
use std::time::Clock;
use tungstenite::{NoMask, WebSocket};

// How long the server waits for a station.
const PATIENCE: Patience = Patience {
    opening: 10,
    writing: 30,
};

impl<S: Serves, R: Threads + Wait + Clock, L: Write + Drop> Shared<'_, S, R, L> {
    // Accepts connections and serves each, until the server closes or as many connections came as
    // it serves.
    pub(crate) fn work(&self, acceptor: &Acceptor, worker: usize, mark: &AtomicBool) {
        for _ in self.rt.forever() {
            let Some(stream) = acceptor.next(self.rt, &self.workers.closing) else {
                acceptor.leave();
                return;
            };
            if !self.workers.admits_one() {
                acceptor.leave();
                return;
            }
            self.workers.greet(self.rt, worker);
            self.serve_one(worker, mark, stream);
            self.workers.end(self.rt, worker);
        }
    }

    // Serves a connection: its handshake, and the session after it.
    fn serve_one(&self, worker: usize, mark: &AtomicBool, stream: TcpStream) {
        let closing = &self.workers.closing;
        let Ok(connection) = Connection::open(self.rt, closing, mark, PATIENCE) else {
            return;
        };
        let Ok(stream) = ConnectionStream::open(&connection, stream) else {
            return;
        };
        match greet(self.alloc, stream) {
            Ok(greeted) => self.receive(worker, &connection, greeted),
            Err(why) => self.log.tell_refused(self.rt, why, &ArrayString::new()),
        }
    }

    // Serves the session of a client after its handshake, if the client is let in.
    fn receive(
        &self,
        worker: usize,
        connection: &Connection<'_, R>,
        greeted: Greeted<ConnectionStream<'_, R>>,
    ) {
        let mut socket = greeted.socket;
        match self.running.let_in(greeted.asked) {
            Ok((name, pass)) => {
                self.workers.begin(self.rt, worker, pass.station());
                self.attend(&mut socket, &name, pass, connection);
            }
            Err(why) => {
                connection.leaves();
                refuse(&mut socket, why);
                self.log.tell_refused(self.rt, why, &greeted.shown);
            }
        }
    }

    // Serves a session to its end.
    fn attend(
        &self,
        socket: &mut WebSocket<ConnectionStream<'_, R>, NoMask>,
        name: &Name,
        pass: Pass,
        connection: &Connection<'_, R>,
    )
        requires { IsNamed self.now.running.desk.now.stations name.now pass.station }
    {
        self.log.tell_begun(self.rt, name);
        connection.serves();
        let before = pass.changes();
        let (rt, alloc, desk) = (self.rt, self.alloc, self.running.serves);
        let gate = LimitObserver {
            near: &self.near,
            log: &self.log,
            station: pass.station(),
            used: Cell::new(None),
        };
        let mut clock = SystemMoments { rt };
        let client = Client { socket, name, pass };
        let end = serve_session(rt, alloc, client, desk, &gate, &mut clock, connection);
        self.finish(name, before, end);
    }

    // Reports how a session ended, which began with this many changes, puts its pass back, and keeps what came with its
    // answers.
    fn finish(&self, name: &Name, before: u64, end: SessionEnd<S::Seen>)
        requires { All (IsAnswered S.gives) end.seen.items }
    {
        let (why, texts, pass) = (end.why, end.texts, end.pass);
        self.answers.lock(self.rt).add(end.seen);
        if let Some(pass) = pass {
            let changes = pass.changes().saturating_sub(before);
            self.log.tell_ended(self.rt, name, why, texts, changes);
            let _lost = self.running.lay(pass);
        }
    }
}
