//! The bytes of the answer to a browser.
ghost use Rattle.std.specs.Prelude.{◌≡◌, ◌++◌, IfOk, OnOk};
ghost use Rattle.live_server.specs.Responses.{head_line, response_bytes, status_text};

use itoa::Buffer;
use std::alloc::{AllocError, Global};

/// How a browser's request went (RFC 9110).
#[derive(Clone, Copy)]
pub enum Status {
    /// 200: the body is what it asked for.
    Found,
    /// 400: it is no request, or its head is too long.
    Malformed,
    /// 404: there is nothing under this path.
    NotFound,
    /// 405: it is no GET.
    NotAllowed,
    /// 503: there is no memory for it.
    NoMemory,
}

impl Status {
    /// The number and the reason of a status line.
    pub fn text(self) -> &'static str
        ensures { result.now ≡ status_text self }
    {
        match self {
            Status::Found => "200 OK",
            Status::Malformed => "400 Bad Request",
            Status::NotFound => "404 Not Found",
            Status::NotAllowed => "405 Method Not Allowed",
            Status::NoMemory => "503 Service Unavailable",
        }
    }
}

// Appends a line of a head, in two parts.
fn put_head(bytes: &mut Vec<u8>, label: &str, text: &str) -> Result<(), AllocError>
    ensures { OnOk result (bytes.new.items ≡ bytes.old.items ++ head_line (label.now ++ text.now)) }
{
    bytes.extend_from_slice(label.as_bytes())?;
    bytes.extend_from_slice(text.as_bytes())?;
    bytes.extend_from_slice(b"\r\n")?;
    Ok(())
}

/// An answer with this status, content type and body; the connection ends after it.
pub fn response(
    alloc: Global,
    status: Status,
    kind: &str,
    body: &[u8],
) -> Result<Vec<u8>, AllocError>
    ensures { IfOk result (λ bytes. bytes.items ≡ response_bytes status kind.now body.now) }
{
    let mut bytes = Vec::new(alloc);
    put_head(&mut bytes, "HTTP/1.1 ", status.text())?;
    put_head(&mut bytes, "Content-Type: ", kind)?;
    put_head(
        &mut bytes,
        "Content-Length: ",
        Buffer::new().format(body.len()),
    )?;
    put_head(&mut bytes, "Connection: close", "")?;
    put_head(&mut bytes, "", "")?;
    bytes.extend_from_slice(body)?;
    Ok(bytes)
}
