//! A key's name as the table holds it.

ghost use Rattle.std.specs.Prelude.{◌≡◌, ◌≤◌, length};
ghost use Rattle.ld_trace.specs.Names.{are_visible, is_class_name};

use arrayvec::ArrayString;

/// The most bytes that a class's name may have.
pub const MAX_NAME: usize = 64;

// A class's name and a subclass, stored in place, without memory of their own.
#[derive(Clone, Copy, PartialEq, Eq, Hash, Debug)]
pub(crate) struct StoredName {
    pub(crate) text: ArrayString<MAX_NAME>,
    pub(crate) sub: u8,
}

impl StoredName {
    // Keeps a name of at most 64 bytes and a subclass.
    pub(crate) fn new(text: &str, sub: u8) -> StoredName
        requires { length text.now ≤ MAX_NAME }
        ensures text { result.text.bytes ≡ text.now }
        ensures sub { result.sub ≡ sub }
    {
        let mut kept = ArrayString::new();
        kept.push_str(text);
        StoredName { text: kept, sub }
    }
}

// Whether these bytes name a lock class: 1 to 64 of them, each 0x21 to 0x7E.
pub(crate) fn is_class_name(bytes: &[u8]) -> bool
    ensures { result ≡ is_class_name bytes.now }
{
    !bytes.is_empty() && bytes.len() <= MAX_NAME && are_visible(bytes)
}

// Whether each of these bytes is 0x21 to 0x7E.
fn are_visible(bytes: &[u8]) -> bool
    ensures { result ≡ are_visible bytes.now }
{
    bytes.iter().all(|&byte| 0x21 <= byte && byte <= 0x7E)
}
