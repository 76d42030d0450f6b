ghost use Rattle.std.specs.Prelude.{◌≡◌, ◌+◌, ◌≤◌, ◌++◌};
ghost use Rattle.arrayvec.specs.ArrayString.{array_string_len};
ghost use Rattle.ocppj_frame.specs.Reply.{body_bytes};

use arrayvec::ArrayString;

/// The payload of a CALLRESULT (OCPP 2.0.1 Part 4).
#[derive(Clone, Copy)]
pub enum Body {
    /// An object with no member.
    Empty,
    /// A TransactionEventResponse with `idTokenInfo`: the id token is accepted unchecked.
    TokenAccepted,
    /// A HeartbeatResponse with this moment.
    Now(ArrayString<20>),
    /// A BootNotificationResponse: accepted, with this moment and an interval of 300 seconds.
    Boot(ArrayString<20>),
}

// Puts the body's JSON, without blanks, behind a text.
pub(crate) fn push_body(out: &mut ArrayString<512>, body: Body)
    requires { array_string_len out.old + 80 ≤ 512 }
    ensures bytes { out.new.bytes ≡ out.old.bytes ++ body_bytes body }
    ensures len { array_string_len out.new ≤ array_string_len out.old + 80 }
{
    match body {
        Body::Empty => out.push_str("{}"),
        Body::TokenAccepted => out.push_str("{\"idTokenInfo\":{\"status\":\"Accepted\"}}"),
        Body::Now(now) => {
            out.push_str("{\"currentTime\":\"");
            out.push_str(now.as_str());
            out.push_str("\"}");
        }
        Body::Boot(now) => {
            out.push_str("{\"currentTime\":\"");
            out.push_str(now.as_str());
            out.push_str("\",\"interval\":300,\"status\":\"Accepted\"}");
        }
    }
}
