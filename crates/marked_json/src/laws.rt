//! Laws of the marked reading, each proved as the contract of a function that does nothing.
ghost use Rattle.std.specs.Prelude.{◌≡◌, ◌↔◌, ◌∷◌, ◌++◌, [], ℕ, List, IsTrue, Ok};
ghost use Rattle.serde_json.{specs.Data.{Data, string}, specs.Written.compact_text};
ghost use Rattle.marked_json.{specs.Marking.{marked, outside, with_front}, specs.Number.{is_number, IsNumber}, specs.Reading.marked_reading, specs.Strings.{is_content, IsTextAlone, IsNumberAlone}};

/// The tokens that are taken as numbers are the numbers of RFC 8259, and no others.
pub fn numbers_are_those_of_the_grammar()
    ensures { (token : List ℕ) → IsTrue (is_number token) ↔ IsNumber token }
{}

/// Each number of RFC 8259 is read as a number with exactly that token, and as nothing else.
pub fn a_number_is_its_token()
    ensures { (token : List ℕ) → IsNumber token
        → (tree : Data) × (marked_reading token ≡ Ok tree) × IsNumberAlone token tree }
{}

/// A string, written as JSON, is read as a text with exactly that content, and as nothing else; so is one that
/// looks like a mark, such as `"#1"` or `"$x"`.
pub fn a_string_is_a_text()
    ensures { (content : List ℕ)
        → (tree : Data) × (marked_reading (compact_text (string content)) ≡ Ok tree) × IsTextAlone content tree }
{}

/// Wherever a text has a string, `$` is put behind its opening quote, and its content is copied with its
/// escapes.
pub fn a_string_keeps_its_content()
    ensures { (content rest : List ℕ) → IsTrue (is_content content)
        → marked outside (34 ∷ (content ++ 34 ∷ rest)) ≡ with_front (34 ∷ 36 ∷ (content ++ 34 ∷ [])) (marked outside rest) }
{}
