//! What the name of a lock tells of its class.

ghost use Rattle.std.specs.Prelude.{◌≡◌};
ghost use Rattle.ld_trace.specs.Classes.{before_at, class_of, is_rest, text_at, type_of};

/// How closely locks are told apart.
#[derive(Clone, Copy, PartialEq, Eq, Debug)]
pub enum Level {
    /// Single locks: by their names.
    Locks,
    /// Classes: by what stands before a name's last `#`, if anything does.
    Classes,
    /// Types: by what stands before the first `@` of a class, if anything does.
    Types,
}

impl Level {
    /// What a name is at this level: the name itself or its beginning.
    pub fn text_of(self, name: &str) -> &str
        ensures { result.now ≡ text_at self name.now }
    {
        match self {
            Level::Locks => name,
            Level::Classes => class_of(name),
            Level::Types => type_of(name),
        }
    }
}

/// Whether the name stands for all locks of its class that aren't told apart: `CLASS#rest`, or `CLASS#rest@N`.
pub fn is_rest(name: &str) -> bool
    ensures { result ≡ is_rest name.now }
{
    match name.rsplit_once('#') {
        Some((class, lock)) => !class.is_empty() && before_at(lock) == "rest",
        None => false,
    }
}

// The class of a name.
fn class_of(name: &str) -> &str
    ensures { result.now ≡ class_of name.now }
{
    match name.rsplit_once('#') {
        Some((class, _)) if !class.is_empty() => class,
        _ => name,
    }
}

// The type of the class of a name.
fn type_of(name: &str) -> &str
    ensures { result.now ≡ type_of name.now }
{
    let class = class_of(name);
    let kind = before_at(class);
    if kind.is_empty() { class } else { kind }
}

// The text up to the first `@`.
fn before_at(text: &str) -> &str
    ensures { result.now ≡ before_at text.now }
{
    match text.split_once('@') {
        Some((before, _)) => before,
        None => text,
    }
}
