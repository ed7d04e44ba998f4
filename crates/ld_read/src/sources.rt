//! Where traces are read from.

ghost use Rattle.std.specs.Prelude.{◌≡◌, IfSome, ℕ, List, Option, Some};

use std::io::Read;

/// The sources of traces, at places 0, 1, and so on, as files are.
pub trait Sources {
    type Source: Read + Drop + Send + Sync;

    // The bytes of the source at each place, if they are known.
    ghost holds: { Self → ℕ → Option (List ℕ) };

    /// Opens the source at this place before its turn: earlier ones may not have been read yet. If it returns None, nothing is known
    /// of the source, and it is opened again in its turn.
    fn ahead(&self, place: usize) -> Option<Self::Source>
        ensures { IfSome result (λ source. IfSome (holds self.now place) (λ bytes. Self.Source.remaining source ≡ Some bytes)) };

    /// Opens the source at this place in its turn. None if it can't be opened.
    fn open(&self, place: usize) -> Option<Self::Source>
        ensures { IfSome result (λ source. IfSome (holds self.now place) (λ bytes. Self.Source.remaining source ≡ Some bytes)) };
}
