//! What a browser asks for, by the head of its request.
ghost use Rattle.live_server.specs.Asking.{AsksAt, IsAskedBy};

use httparse::Status;
use httparse::spans::{EMPTY_HEADER_SPAN, parse_request};
use ledger_model::Name;

// How many header lines a request may have.
const MAX_HEADERS: usize = 64;

// The beginning of the path of a board.
const BOARD_PATH: &[u8] = b"/board/";

// What the bytes of a request ask for.
#[derive(Drop)]
pub(crate) enum Request {
    // The head has not ended yet.
    Unfinished,
    // No request, whatever bytes follow.
    Malformed,
    // Another method than GET.
    NotAllowed,
    // The list of sites.
    Sites,
    // The board of the site of this name.
    Board(Name),
    // A path with nothing under it.
    Elsewhere,
}

// Reads the bytes of a request that have come.
pub(crate) fn read_request(bytes: &[u8]) -> Request
    ensures { IsAskedBy bytes.now result }
{
    let mut headers = [EMPTY_HEADER_SPAN; MAX_HEADERS];
    match parse_request(bytes, &mut headers) {
        Ok(Status::Complete(head)) => {
            if head.method.of(bytes) == b"GET".as_slice() {
                asked_at(head.path.of(bytes))
            } else {
                Request::NotAllowed
            }
        }
        Ok(Status::Partial) => Request::Unfinished,
        Err(_) => Request::Malformed,
    }
}

// What a path asks for.
fn asked_at(path: &[u8]) -> Request
    ensures { AsksAt path.now result }
{
    if path == b"/".as_slice() {
        return Request::Sites;
    }
    let Some(name) = path.strip_prefix(BOARD_PATH) else {
        return Request::Elsewhere;
    };
    let Ok(text) = str::from_utf8(name) else {
        return Request::Elsewhere;
    };
    match Name::new(text) {
        Some(name) => Request::Board(name),
        None => Request::Elsewhere,
    }
}
