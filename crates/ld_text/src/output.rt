//! Writing whole texts to a writer.

ghost use Rattle.std.specs.Prelude.{[], ◌++◌, ◌≡◌, Err, OnErr, OnOk};
ghost use Rattle.ld_text.specs.Names.{Appends};
ghost use Rattle.ld_text.specs.Clauses.{AppendsBeginning, PutsBehind};
ghost use Rattle.std.specs.List.{flat_map};

use crate::write_fault::WriteFault;
use arrayvec::ArrayString;
use std::io::Write;

/// How many bytes of text are kept back until they are written together.
const PAGE_BYTES: usize = 4_096;

/// Text that wasn't written yet. It takes no memory.
pub(crate) type Page = ArrayString<PAGE_BYTES>;

/// Writes the whole text, piece by piece as the writer takes it.
///
/// It is refused if the writer returns an error (`Failed`) or takes nothing (`Stuck`). Exactly a beginning of the
/// text was written then.
pub fn write_text<W: Write>(w: &mut W, text: &[u8]) -> Result<(), WriteFault>
    ensures ok { OnOk result (Appends (W.contents w.old) (W.contents w.new) text.now) }
    ensures not_memory { ¬ (result ≡ Err WriteFault.Memory) }
    ensures err { OnErr result (AppendsBeginning (W.contents w.old) (W.contents w.new) text.now) }
{
    let mut rest = text;
    while !rest.is_empty() {
        match w.write(rest) {
            Ok(0) => return Err(WriteFault::Stuck),
            Ok(taken) => rest = &rest[taken..],
            Err(_) => return Err(WriteFault::Failed),
        }
    }
    Ok(())
}

/// Writes out the page and empties it.
pub(crate) fn write_out<W: Write>(w: &mut W, page: &mut Page) -> Result<(), WriteFault>
    ensures ok { OnOk result (Appends (W.contents w.old) (W.contents w.new) page.old.bytes) }
    ensures empty { OnOk result (page.new.bytes ≡ []) }
    ensures not_memory { ¬ (result ≡ Err WriteFault.Memory) }
    ensures err { OnErr result (AppendsBeginning (W.contents w.old) (W.contents w.new) page.old.bytes) }
{
    write_text(w, page.as_str().as_bytes())?;
    page.clear();
    Ok(())
}

/// Puts a text onto the page. If there is no room for it, the page is written out, and the text after it.
pub(crate) fn put<W: Write>(w: &mut W, page: &mut Page, text: &str) -> Result<(), WriteFault>
    ensures ok { OnOk result (PutsBehind (W.contents w.old) (W.contents w.new) page.old.bytes page.new.bytes text.now) }
    ensures not_memory { ¬ (result ≡ Err WriteFault.Memory) }
    ensures err { OnErr result (AppendsBeginning (W.contents w.old) (W.contents w.new) (page.old.bytes ++ text.now)) }
{
    let Err(_) = page.try_push_str(text) else {
        return Ok(());
    };
    write_out(w, page)?;
    write_text(w, text.as_bytes())
}

/// Writes several texts, one after the other: together, as far as a page holds them. O1 if the writer returns an error and O2 if it
/// takes nothing, after exactly a beginning of them.
pub fn write_texts<W: Write>(w: &mut W, texts: &[&str]) -> Result<(), WriteFault>
    ensures ok { OnOk result (Appends (W.contents w.old) (W.contents w.new) (flat_map (λ text. text.now) texts.now)) }
    ensures not_memory { ¬ (result ≡ Err WriteFault.Memory) }
    ensures err { OnErr result (AppendsBeginning (W.contents w.old) (W.contents w.new)
        (flat_map (λ text. text.now) texts.now)) }
{
    let mut page = Page::new();
    for text in texts {
        put(w, &mut page, text)?;
    }
    write_out(w, &mut page)
}
