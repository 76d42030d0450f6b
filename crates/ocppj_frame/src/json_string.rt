ghost use Rattle.std.{specs.Prelude.{◌≡◌, ◌≤◌, ◌+◌, ◌<◌, ◌++◌}, specs.Char.digit_char};
ghost use Rattle.arrayvec.specs.ArrayString.{array_string_len};
ghost use Rattle.ocppj_frame.{specs.Reply.{json_string as json_string_of, escaped, character_count}, specs.Ranges.longest_message_id};

use arrayvec::ArrayString;

// A hexadecimal digit, in lower case.
fn hex_digit(value: u32) -> char
    requires { value < 16 }
    ensures value { result ≡ digit_char value }
    ensures ascii { result < 128 }
{
    char::from_digit(value, 16).unwrap()
}

// Appends a character as a JSON string has it.
fn push_escaped(text: &mut ArrayString<512>, character: char)
    requires { array_string_len text.old + 6 ≤ 512 }
    ensures { text.new.bytes ≡ text.old.bytes ++ escaped character }
{
    match character {
        '"' | '\\' => {
            text.push('\\');
            text.push(character);
        }
        '\0'..='\u{1f}' => {
            let code = u32::from(character);
            text.push_str("\\u00");
            text.push(hex_digit(code / 16));
            text.push(hex_digit(code % 16));
        }
        _ => text.push(character),
    }
}

// Appends a text of at most 36 characters as a JSON string.
pub(crate) fn push_json_string(out: &mut ArrayString<512>, text: &str)
    requires short { character_count text.now ≤ longest_message_id }
    requires room { array_string_len out.old + 218 ≤ 512 }
    ensures bytes { out.new.bytes ≡ out.old.bytes ++ json_string_of text.now }
    ensures len { array_string_len out.new ≤ array_string_len out.old + 218 }
{
    out.push('"');
    for character in text.chars() {
        push_escaped(out, character);
    }
    out.push('"');
}
