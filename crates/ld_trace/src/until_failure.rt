//! A source that isn't read on after a failure.

ghost use Rattle.std.specs.Prelude.{◌≡◌, ◌↔◌, IsErr, IsFalse, IsTrue};
ghost use Rattle.std.specs.Io.{ReadsAtMost};
ghost use Rattle.std.specs.Io.KnownBytes.{ReadConsumes};

use std::io;
use std::io::{Error, ErrorKind, Read};

// A source, and whether a read of it has failed: then each later one fails as well, and the source isn't asked again.
#[derive(Drop)]
pub(crate) struct UntilFailure<S> {
    source: S,
    has_failed: bool,
}

impl<S> UntilFailure<S> {
    // No read has failed yet.
    pub(crate) fn new(source: S) -> UntilFailure<S>
        ensures source { result.source ≡ source }
        ensures fresh { IsFalse result.has_failed }
    {
        UntilFailure {
            source,
            has_failed: false,
        }
    }
}

impl<S: Read> Read for UntilFailure<S> {
    ghost remaining = { λ reader. S.remaining reader.source };

    fn read(&mut self, buf: &mut [u8]) -> io::Result<usize>
        ensures bound { ReadsAtMost result buf.new }
        ensures bytes { ReadConsumes (S.remaining self.old.source) (S.remaining self.new.source) result buf.new }
        ensures again { IsTrue self.old.has_failed → IsErr result }
        ensures failed { IsErr result ↔ IsTrue self.new.has_failed }
    {
        if self.has_failed {
            return Err(Error::from(ErrorKind::Other));
        }
        let read = self.source.read(buf);
        self.has_failed = read.is_err();
        read
    }
}
