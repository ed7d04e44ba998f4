//! Words of the program's texts.

ghost use Rattle.std.specs.Prelude.{[], ◌++◌, ◌+◌, ◌<◌, ◌∷◌, ◌≡◌, ◌≤◌, decimal, length, map};
ghost use Rattle.ld_text.specs.Names.{name_at};
ghost use Rattle.ld_text.specs.Clauses.{file_at, flag_text, frame_text, kind_text};

use arrayvec::ArrayString;
use ld_graph::Kind;
use ld_task::Frame;
use ld_trace::{KeyId, KeyTable, MAX_NAME};

/// What texts call the trace on standard input.
pub const STDIN: &str = "stdin";

/// The name of the file that the trace at this place was read from. If no file is named, it is standard input.
pub fn file_of<'a>(files: &[&'a str], place: usize) -> &'a str
    ensures { result.now ≡ file_at (map (λ file. file.now) files.entry.now) place }
{
    files.get(place).copied().unwrap_or(STDIN)
}

/// The class's name and the subclass of a key; an empty name if there is no such key.
pub(crate) fn name_of(keys: &KeyTable, key: KeyId) -> (&str, u8)
    ensures name { (result.0.now, result.1) ≡ name_at keys.now.names key }
    ensures short { length result.0.now ≤ MAX_NAME }
{
    keys.name_of(key).unwrap_or(("", 0))
}

/// The word for a kind of dependency.
pub(crate) fn kind_word(kind: Kind) -> &'static str
    ensures { result.now ≡ kind_text kind }
{
    match kind {
        Kind::Er => "ER",
        Kind::En => "EN",
        Kind::Sr => "SR",
        Kind::Sn => "SN",
    }
}

/// The word for a frame.
pub(crate) fn frame_word(frame: Frame) -> &'static str
    ensures word { result.now ≡ frame_text frame }
    ensures short { length result.now ≤ 7 }
{
    match frame {
        Frame::Task => "task",
        Frame::Softirq => "softirq",
        Frame::Hardirq => "hardirq",
    }
}

/// The word for a flag.
pub(crate) fn flag_word(on: bool) -> &'static str
    ensures word { result.now ≡ flag_text on }
    ensures short { length result.now ≤ 3 }
{
    if on { "on" } else { "off" }
}

// The words for the digits.
const DIGITS: [&str; 10] = ["0", "1", "2", "3", "4", "5", "6", "7", "8", "9"];

// The digits of a number, at most 20.
type Digits = ArrayString<20>;

// The word for a digit.
fn digit(number: usize) -> &'static str
    requires { number < 10 }
    ensures { result.now ≡ (48 + number) ∷ [] }
{
    DIGITS[number]
}

// Appends the digits of a number.
fn add_digits(digits: &mut Digits, number: usize)
    requires { length digits.old.bytes + length (decimal number) ≤ 20 }
    ensures { digits.new.bytes ≡ digits.old.bytes ++ decimal number }
{
    if number < 10 {
        digits.push_str(digit(number));
        return;
    }
    add_digits(digits, number / 10);
    digits.push_str(digit(number % 10));
}

/// The digits of a number.
pub fn digits_of(number: usize) -> Digits
    ensures text { result.bytes ≡ decimal number }
    ensures few { number < 1000 → length result.bytes ≤ 3 }
{
    let mut digits = Digits::new();
    add_digits(&mut digits, number);
    digits
}
