//! Boards in a browser: a listener of its own, one request at a time, and no request changes anything.
ghost use Rattle.std.{specs.Prelude.{◌≡◌, ◌++◌, All, IfOk, OnOk}, specs.List.position, specs.Str.bytes_eq};
ghost use Rattle.live_server.{specs.declared.reply.Status.Status, specs.Browsing.{IsBoardAnswer, IsBrowsed, IsNoted, IsSeenWithBoards, site_link, sites_page}, specs.Responses.{html, response_bytes, status_bytes}};

use crate::acceptor::Acceptor;
use crate::connection::{Connection, ConnectionStream, Patience};
use crate::reply::{Status, response};
use crate::request::{Request, read_request};
use crate::shared::Shared;
use ledger_model::Name;
use running_desk::{Serves, site_of};
use site_desk::Plan;
use station_link::Attendant;
use std::alloc::{AllocError, Global};
use std::io;
use std::io::{ErrorKind, Read, Write};
use std::net::TcpStream;
use std::snapshot::Snapshot;
use std::sync::Wait;
use std::sync::atomic::AtomicBool;
use std::thread::{Promise, Threads};
use std::time::Clock;

// How many bytes the head of a request may have.
const MAX_HEAD: usize = 8_192;

// How long the server waits for a browser.
const PATIENCE: Patience = Patience {
    opening: 5,
    writing: 5,
};

// The most reads of bytes that a browser sent beyond its head.
const MAX_LAST_READS: u32 = 64;

// The content types.
const TEXT: &str = "text/plain; charset=utf-8";

const PAGE: &str = "text/html; charset=utf-8";

// The answer if there is no memory for another one.
const NO_MEMORY: &[u8] =
    b"HTTP/1.1 503 Service Unavailable\r\nContent-Length: 0\r\nConnection: close\r\n\r\n";

impl<S: Serves, R: Threads + Wait + Clock, L: Write + Drop> Shared<'_, S, R, L> {
    // Answers one request after the other until the server closes. Returns what was seen of the desk's journal with the
    // boards.
    pub(crate) fn serve_boards(&self, acceptor: &Acceptor) -> Vec<S::Seen>
        ensures { All (IsSeenWithBoards (S.shows self.now.running.serves.now)) result.items }
    {
        let mut seen = Vec::new(self.alloc);
        for _ in self.rt.forever() {
            let Some(stream) = acceptor.next(self.rt, &self.workers.closing) else {
                acceptor.leave();
                break;
            };
            self.serve_request(stream, &mut seen);
        }
        seen
    }

    // Reads a request and writes its answer. Adds what was seen with a board.
    fn serve_request(&self, stream: TcpStream, seen: &mut Vec<S::Seen>)
        requires { All (IsSeenWithBoards (S.shows self.now.running.serves.now)) seen.old.items }
        ensures { All (IsSeenWithBoards (S.shows self.now.running.serves.now)) seen.new.items }
    {
        let unmarked = AtomicBool::new(false);
        let closing = &self.workers.closing;
        let Ok(connection) = Connection::open(self.rt, closing, &unmarked, PATIENCE) else {
            return;
        };
        let Ok(mut stream) = ConnectionStream::open(&connection, stream) else {
            return;
        };
        let mut head = [0; MAX_HEAD];
        let Ok(request) = read_head(&mut stream, &mut head) else {
            return;
        };
        connection.serves();
        let _ = match self.answer_noted(request, seen) {
            Ok(bytes) => write_answer(&connection, &mut stream, &bytes),
            Err(_) => write_answer(&connection, &mut stream, NO_MEMORY),
        };
    }

    // The bytes that answer a request. What was seen with a board is put to the rest first: no browser gets a board
    // without it.
    fn answer_noted(&self, request: Request, seen: &mut Vec<S::Seen>) -> Result<Vec<u8>, AllocError>
        requires { All (IsSeenWithBoards (S.shows self.now.running.serves.now)) seen.old.items }
        ensures all { All (IsSeenWithBoards (S.shows self.now.running.serves.now)) seen.new.items }
        ensures noted { IfOk result (λ bytes. IsNoted (S.shows self.now.running.serves.now) self.now.running.plan.now.sites.items self.now.running.desk.now.stations
            request bytes.items seen.old.items seen.new.items) }
    {
        let (bytes, own) = self.answer(request)?;
        if let Some(own) = own {
            seen.push(own)?;
        }
        Ok(bytes)
    }

    // The bytes that answer a request, and what was seen with a board.
    fn answer(&self, request: Request) -> Result<Answered<S::Seen>, AllocError>
        ensures { IfOk result (λ r. IsBrowsed (S.shows self.now.running.serves.now) self.now.running.plan.now.sites.items self.now.running.desk.now.stations request r.0.items r.1) }
    {
        match request {
            Request::Sites => Ok((answer_sites(self.alloc, self.running.plan)?, None)),
            Request::Board(name) => self.answer_board(&name),
            Request::Elsewhere => told(self.alloc, Status::NotFound),
            Request::NotAllowed => told(self.alloc, Status::NotAllowed),
            Request::Malformed | Request::Unfinished => told(self.alloc, Status::Malformed),
        }
    }

    // The board of the site of this name. It waits for the locks of the site, and for a write to the journal that is under
    // way, as an operator's board does.
    fn answer_board(&self, name: &Name) -> Result<Answered<S::Seen>, AllocError>
        ensures { IfOk result (λ r. IsBoardAnswer (S.shows self.now.running.serves.now) self.now.running.plan.now.sites.items self.now.running.desk.now.stations
            (position (λ s. bytes_eq name.now s.name) self.now.running.plan.now.sites.items) r.0.items r.1) }
    {
        let Some(site) = site_of(self.running.plan, name) else {
            return told(self.alloc, Status::NotFound);
        };
        match self.running.board(site) {
            Ok((text, seen)) => {
                let bytes = response(self.alloc, Status::Found, TEXT, &text)?;
                Ok((bytes, Some(seen)))
            }
            Err(_) => told(self.alloc, Status::NoMemory),
        }
    }
}

// The promise that the thread that answers browsers returns what was seen with boards of this desk.
#[derive(Drop)]
pub(crate) struct SeenWithBoards<S: Serves>(Snapshot<S>);

impl<S: Serves> SeenWithBoards<S> {
    // That of this desk.
    pub(crate) fn of(serves: &S) -> Self
        ensures { result.0.value ≡ serves.now }
    {
        SeenWithBoards(Snapshot::of(serves))
    }
}

impl<S: Serves> Promise<Vec<S::Seen>> for SeenWithBoards<S> {
    ghost use Rattle.std.specs.Prelude.{All};
    ghost use Rattle.live_server.specs.Browsing.{IsSeenWithBoards};

    ghost kept_by = { λ p r. All (IsSeenWithBoards (S.shows p.0.value)) r.items };
}

// Writes an answer, and ends the output to the browser.
fn write_answer<R: Wait + Clock>(
    connection: &Connection<'_, R>,
    stream: &mut ConnectionStream<'_, R>,
    bytes: &[u8],
) -> io::Result<()> {
    stream.write_all(bytes)?;
    stream.flush()?;
    connection.leaves();
    stream.shut()?;
    read_rest(stream);
    Ok(())
}

// The request of a stream, whose head is read into this buffer; it reads no more than it needs.
fn read_head<S: Read>(stream: &mut S, head: &mut [u8]) -> io::Result<Request> {
    let mut held = 0;
    for _ in 0..head.len() {
        let count = stream.read(&mut head[held..])?;
        if count == 0 {
            return Err(io::Error::from(ErrorKind::UnexpectedEof));
        }
        held += count;
        match read_request(&head[..held]) {
            Request::Unfinished => {}
            request => return Ok(request),
        }
        if held == head.len() {
            break;
        }
    }
    Ok(Request::Malformed)
}

// Reads the bytes that a browser sent beyond its head: unread bytes would reset the connection before it has
// its answer.
fn read_rest<S: Read>(stream: &mut S) {
    let mut rest = [0; 256];
    for _ in 0..MAX_LAST_READS {
        match stream.read(&mut rest) {
            Ok(0) | Err(_) => return,
            Ok(_) => {}
        }
    }
}

// The bytes of an answer, and what was seen of the desk's journal with a board.
type Answered<M> = (Vec<u8>, Option<M>);

// An answer with only its status.
fn told<M>(alloc: Global, status: Status) -> Result<Answered<M>, AllocError>
    ensures { IfOk result (λ r. (r.0.items ≡ status_bytes status) × (r.1 ≡ None)) }
{
    Ok((
        response(alloc, status, TEXT, status.text().as_bytes())?,
        None,
    ))
}

// The list of sites, each a link to its board.
fn answer_sites(alloc: Global, plan: &Plan) -> Result<Vec<u8>, AllocError>
    ensures { IfOk result (λ bytes. bytes.items ≡ response_bytes Status.Found html (sites_page plan.now.sites.items)) }
{
    let sites = plan.sites.as_slice();
    let mut page = Vec::new(alloc);
    page.extend_from_slice(b"<!DOCTYPE html>\n<title>ocpp_board</title>\n<ul>\n")?;
    for site in sites {
        put_link(&mut page, site.name.text())?;
    }
    page.extend_from_slice(b"</ul>\n")?;
    response(alloc, Status::Found, PAGE, &page)
}

// Appends the link to a site's board. No character of a name has a special meaning in a page or a path.
fn put_link(page: &mut Vec<u8>, name: &str) -> Result<(), AllocError>
    ensures { OnOk result (page.new.items ≡ page.old.items ++ site_link name.now) }
{
    page.extend_from_slice(b"<li><a href=\"/board/")?;
    page.extend_from_slice(name.as_bytes())?;
    page.extend_from_slice(b"\">")?;
    page.extend_from_slice(name.as_bytes())?;
    page.extend_from_slice(b"</a></li>\n")?;
    Ok(())
}
