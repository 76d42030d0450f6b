ghost use Rattle.std.{specs.Prelude.{◌≡◌, ◌≤◌, true, length}, specs.List.list_all};
ghost use Rattle.ocppj_frame.{specs.Reply.{result_bytes, error_bytes, character_count, is_letter}, specs.Ranges.longest_message_id};

use crate::body::{Body, push_body};
use crate::error_code::ErrorCode;
use crate::json_string::push_json_string;
use arrayvec::ArrayString;

/// A CALLRESULT without blanks (OCPP 2.0.1 Part 4). The id has at most 36 characters, counted as
/// Unicode scalar values.
pub fn result_text(id: &str, body: Body) -> ArrayString<512>
    requires { character_count id.now ≤ longest_message_id }
    ensures { result.bytes ≡ result_bytes id.now body }
{
    let mut text = ArrayString::new();
    put_result(&mut text, id, body);
    text
}

/// Puts a CALLRESULT, as [`result_text`] gives it, into a text, in place of what was there.
pub fn put_result(text: &mut ArrayString<512>, id: &str, body: Body)
    requires { character_count id.now ≤ longest_message_id }
    ensures { text.new.bytes ≡ result_bytes id.now body }
{
    text.clear();
    text.push_str("[3,");
    push_json_string(text, id);
    text.push_str(",");
    push_body(text, body);
    text.push_str("]");
}

/// A CALLERROR without blanks and details (OCPP 2.0.1 Part 4). The id has at most 36 characters,
/// counted as Unicode scalar values. The description has at most 32 letters from A to Z or a to z.
pub fn error_text(id: &str, code: ErrorCode, description: &str) -> ArrayString<512>
    requires id { character_count id.now ≤ longest_message_id }
    requires short { length description.now ≤ 32 }
    requires letters { list_all is_letter description.now ≡ true }
    ensures { result.bytes ≡ error_bytes id.now code description.now }
{
    let mut text = ArrayString::new();
    text.push_str("[4,");
    push_json_string(&mut text, id);
    text.push_str(",\"");
    text.push_str(code.name());
    text.push_str("\",\"");
    text.push_str(description);
    text.push_str("\",{}]");
    text
}
