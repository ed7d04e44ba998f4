//! Laws of the definitions, each carried by a function that does nothing.

ghost use Rattle.ld_trace.specs.KnownLines.{KnownLinesRead, KnownLinesStay, WrittenLinesRead};
ghost use Rattle.ld_trace.specs.Laws.{NewTablesHaveRoom, RenumberingsStay, TextsReadBack, TextsReadThemselves, TracesReadAlike};
ghost use Rattle.ld_trace.specs.Pieces.{HeadersRead, PiecesJoin};

/// What `trace_text` writes, `read_trace` reads back: over any table with room for the trace's names, as events that
/// say the same, each key by its name; a new table with as much room as the trace's own has room for them; and over the
/// table that it was written with, as the very same events.
pub fn written_traces_read_back()
    ensures any { TextsReadBack }
    ensures new { NewTablesHaveRoom }
    ensures same { TextsReadThemselves }
{}

/// A trace that reads over a table of its own reads over any other table too that has the names which its own began with, and
/// room for all: it stands for events that say the same, each key by its name.
pub fn traces_read_alike()
    ensures alike { TracesReadAlike }
{}

/// A renumbering stays one when the table that takes in gets more names.
pub fn renumberings_stay()
    ensures stay { RenumberingsStay }
{}

/// A trace that is cut after a newline is two: what follows, with the header before it, is a trace of its own, and the events of both
/// are those of the whole.
pub fn pieces_join()
    ensures join { PiecesJoin }
{}

/// The line of a header is a trace without events.
pub fn headers_read()
    ensures read { HeadersRead }
{}

/// The text of an event whose key the table has is a line that stands for it: a trace of whole lines goes on by it, and no name is
/// added. It stays that event's text when the table gets more names.
pub fn known_lines_read()
    ensures written { WrittenLinesRead }
    ensures read { KnownLinesRead }
    ensures stay { KnownLinesStay }
{}
