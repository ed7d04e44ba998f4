//! What the program reads a trace from.

use std::io;
use std::io::Read;

// The program's input, or a file. They are one type so that the program has one kind of reader of records, whether files are read in
// turn or ahead: a reader of records is 16 KB, and with two kinds each would be made elsewhere and then copied into place for each file.
#[derive(Drop)]
pub(crate) enum Source<I, F> {
    Input(I),
    File(F),
}

impl<I: Read, F: Read> Read for Source<I, F> {
    ghost use Rattle.lockdep.specs.Inside.Sources.{remaining_in};

    ghost remaining = { remaining_in I.remaining F.remaining };

    fn read(&mut self, buf: &mut [u8]) -> io::Result<usize> {
        match self {
            Source::Input(input) => input.read(buf),
            Source::File(file) => file.read(buf),
        }
    }
}
