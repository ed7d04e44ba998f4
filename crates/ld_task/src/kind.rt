//! The kinds of dependencies.

use ld_trace::Mode;

/// How the two ends of a dependency are taken ["Dependency types and strong dependency paths"]. The first letter is E
/// if the held lock was taken by a writer and S if by a reader of either kind; the second is R if the new lock is taken
/// by a recursive reader and N if it isn't.
#[derive(Clone, Copy, PartialEq, Eq, Debug, Hash)]
pub enum Kind {
    Er,
    En,
    Sr,
    Sn,
}

impl Kind {
    ghost use Rattle.std.specs.Prelude.{◌≡◌};
    ghost use Rattle.ld_task.specs.Kinds.{is_r, is_s, kind_between, kind_of_letters};

    /// The kind with these letters.
    pub fn of_letters(first_is_s: bool, second_is_r: bool) -> Kind
        ensures { result ≡ kind_of_letters first_is_s second_is_r }
    {
        match (first_is_s, second_is_r) {
            (false, true) => Kind::Er,
            (false, false) => Kind::En,
            (true, true) => Kind::Sr,
            (true, false) => Kind::Sn,
        }
    }

    /// The kind of a dependency from a lock held in the one mode to one taken in the other.
    pub fn between(held: Mode, taken: Mode) -> Kind
        ensures { result ≡ kind_between held taken }
    {
        Kind::of_letters(held.is_read(), taken.is_recursive())
    }

    /// Whether its first letter is S.
    pub fn begins_with_s(self) -> bool
        ensures { result ≡ is_s self }
    {
        matches!(self, Kind::Sr | Kind::Sn)
    }

    /// Whether its second letter is R.
    pub fn ends_in_r(self) -> bool
        ensures { result ≡ is_r self }
    {
        matches!(self, Kind::Er | Kind::Sr)
    }
}
