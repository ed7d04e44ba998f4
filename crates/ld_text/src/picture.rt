//! The facts as a picture: a graph in the language DOT.

ghost use Rattle.std.specs.Prelude.{◌++◌, ◌↔◌, ◌≡◌, Any, IfErr, IfOk, IsTrue, List, OnOk, flat_map, ℕ};
ghost use Rattle.ld_text.specs.Names.{Appends, HasFact, IsDouble, name_at, states};
ghost use Rattle.ld_text.specs.Clauses.{AreJoined, AreJoinedKeys, GrowsBy, InTurn, IsFoundKey, IsNode, IsPicture, IsUsageCharacter, ShowsKey, StopsWriting, arrow_text, double_links, end_text, escaped, forms, inversion_links, link_line, quoted_key};

use crate::report::{FORMS, usage_character};
use crate::words::{digits_of, name_of};
use crate::{Tried, WriteFault, sorted_keys, write_text};
use ld_explain::Found;
use ld_facts::STATES;
use ld_parts::Settled;
use ld_trace::{Irq, KeyId, KeyTable};
use std::alloc::Global;
use std::io::Write;

// How the line of a double or an inversion ends, after its label.
const LINK_END: &str = ", style=dashed, color=red, fontcolor=red];\n";

// What a picture is written from.
#[derive(Clone, Copy)]
pub(crate) struct PictureView<'a> {
    // The facts, with what they mean.
    pub settled: &'a Settled,
    // The names of the keys.
    pub names: &'a KeyTable,
    // All keys, in the order of their names.
    pub keys: &'a [KeyId],
    // Whether only what is part of a finding is shown.
    pub only: bool,
}

fn add_bytes(text: &mut Vec<u8>, more: &[u8]) -> Tried<()>
    ensures { OnOk result (text.new.items ≡ text.old.items ++ more.now) }
{
    text.extend_from_slice(more)
}

fn add(text: &mut Vec<u8>, more: &str) -> Tried<()>
    ensures { OnOk result (text.new.items ≡ text.old.items ++ more.now) }
{
    text.extend_from_slice(more.as_bytes())
}

// Appends a byte as it stands between double quotes.
fn add_escaped(text: &mut Vec<u8>, byte: u8) -> Tried<()>
    ensures { OnOk result (text.new.items ≡ text.old.items ++ escaped byte) }
{
    match byte {
        b'"' => add(text, "\\\""),
        b'\\' => add(text, "\\\\"),
        _ => Ok(text.push(byte)?),
    }
}

// Appends the bytes of a class's name as they stand between double quotes.
fn add_name(text: &mut Vec<u8>, name: &[u8]) -> Tried<()>
    ensures { OnOk result (text.new.items ≡ text.old.items ++ flat_map escaped name.now) }
{
    for byte in name {
        add_escaped(text, *byte)?;
    }
    Ok(())
}

// Appends how the line of a key or a dependency ends, after its label.
pub(crate) fn add_end(text: &mut Vec<u8>, red: bool) -> Tried<()>
    ensures { OnOk result (text.new.items ≡ text.old.items ++ end_text red) }
{
    add(
        text,
        if red {
            ", color=red, fontcolor=red];\n"
        } else {
            "];\n"
        },
    )
}

impl PictureView<'_> {
    // Whether the key is a double of some state.
    fn is_double(self, key: KeyId) -> bool
        ensures { IsTrue result ↔ Any (λ irq. IsDouble (HasFact self.entry.settled.now) irq key) states }
    {
        for irq in STATES {
            if self.settled.is_double(irq, key.get()) {
                return true;
            }
        }
        false
    }

    // Whether the key is part of a finding. `is_joined`: whether a dependency that is part of one leads from it or to it.
    fn is_found_key(self, key: KeyId, is_joined: bool) -> bool
        requires { IsTrue is_joined ↔ Any (AreJoined (HasFact self.settled.now) key) self.keys.now }
        ensures { IsTrue result ↔ IsFoundKey (HasFact self.entry.settled.now) self.entry.keys.now key }
    {
        self.is_double(key) || is_joined
    }

    // A key as it stands between double quotes.
    fn add_key(self, text: &mut Vec<u8>, key: KeyId) -> Tried<()>
        ensures { OnOk result (text.new.items ≡ text.old.items ++ quoted_key (name_at self.entry.names.now.names key)) }
    {
        let (name, sub) = name_of(self.names, key);
        add_name(text, name.as_bytes())?;
        add(text, "/")?;
        add(text, digits_of(sub as usize).as_str())
    }

    fn add_characters(self, text: &mut Vec<u8>, key: KeyId) -> Tried<()>
        ensures { OnOk result (GrowsBy
            (InTurn (λ form. IsUsageCharacter (HasFact self.entry.settled.now) key form.0 form.1) forms)
            text.old.items text.new.items) }
    {
        for form in FORMS {
            add(text, usage_character(self.settled, key, form.0, form.1))?;
        }
        Ok(())
    }

    fn add_node(self, text: &mut Vec<u8>, key: KeyId, red: bool) -> Tried<()>
        ensures { OnOk result (GrowsBy (IsNode (HasFact self.entry.settled.now) self.entry.names.now.names key red)
            text.old.items text.new.items) }
    {
        add(text, "  \"")?;
        self.add_key(text, key)?;
        add(text, "\" [label=\"")?;
        self.add_key(text, key)?;
        add(text, " {")?;
        self.add_characters(text, key)?;
        add(text, "}\"")?;
        add_end(text, red)
    }

    // The line of a key, if it is shown. `is_joined`: whether a dependency that is part of a finding leads from it or to it.
    fn add_shown_key(self, text: &mut Vec<u8>, key: KeyId, is_joined: bool) -> Tried<()>
        requires { IsTrue is_joined ↔ Any (AreJoined (HasFact self.settled.now) key) self.keys.now }
        ensures { OnOk result (GrowsBy
            (ShowsKey (HasFact self.entry.settled.now) self.entry.names.now.names self.entry.keys.now self.entry.only key)
            text.old.items text.new.items) }
    {
        let red = self.is_found_key(key, is_joined);
        if red || !self.only {
            self.add_node(text, key, red)?;
        }
        Ok(())
    }

    // The lines of the keys. `joined`: of each, whether a dependency that is part of a finding leads from it or to it.
    fn add_keys(self, text: &mut Vec<u8>, joined: &[bool]) -> Tried<()>
        requires { AreJoinedKeys (HasFact self.settled.now) self.keys.now joined.now }
        ensures { OnOk result (GrowsBy
            (InTurn (ShowsKey (HasFact self.entry.settled.now) self.entry.names.now.names self.entry.keys.now
            self.entry.only) self.entry.keys.now) text.old.items text.new.items) }
    {
        for n in 0..self.keys.len() {
            self.add_shown_key(text, self.keys[n], joined[n])?;
        }
        Ok(())
    }

    // An arrow from a key to a key, with its label.
    pub(crate) fn add_arrow(
        self,
        text: &mut Vec<u8>,
        from: KeyId,
        to: KeyId,
        label: &str,
    ) -> Tried<()>
        ensures { OnOk result (text.new.items
            ≡ text.old.items ++ arrow_text self.entry.names.now.names from to label.now) }
    {
        add(text, "  \"")?;
        self.add_key(text, from)?;
        add(text, "\" -> \"")?;
        self.add_key(text, to)?;
        add(text, "\" [label=\"")?;
        add(text, label)?;
        add(text, "\"")
    }

    // A dashed red arrow from the key that is used with a state enabled to the key that is used in it.
    fn add_link(self, text: &mut Vec<u8>, irq: Irq, from: KeyId, to: KeyId) -> Tried<()>
        ensures { OnOk result (text.new.items ≡ text.old.items ++ link_line self.entry.names.now.names irq from to) }
    {
        self.add_arrow(text, from, to, irq.word())?;
        add(text, LINK_END)
    }

    fn add_doubles(self, text: &mut Vec<u8>, doubles: &[(Irq, KeyId)]) -> Tried<()>
        ensures { OnOk result (text.new.items ≡ text.old.items ++ double_links self.entry.names.now.names doubles.now) }
    {
        for double in doubles {
            self.add_link(text, double.0, double.1, double.1)?;
        }
        Ok(())
    }

    fn add_inversions(self, text: &mut Vec<u8>, inversions: &[(Irq, (KeyId, KeyId))]) -> Tried<()>
        ensures { OnOk result (text.new.items
            ≡ text.old.items ++ inversion_links self.entry.names.now.names inversions.now) }
    {
        for inversion in inversions {
            let (a, b) = inversion.1;
            self.add_link(text, inversion.0, b, a)?;
        }
        Ok(())
    }
}

fn picture_text(
    alloc: Global,
    settled: &Settled,
    names: &KeyTable,
    findings: bool,
) -> Tried<Vec<u8>>
    ensures { IfOk result (λ text. IsPicture (HasFact settled.now) findings names.now.names text.items) }
{
    let keys = sorted_keys(alloc, names)?;
    let keys = keys.as_slice();
    let view = PictureView {
        settled,
        names,
        keys,
        only: findings,
    };
    let found = Found::of(alloc, settled, keys)?;
    let mut edges = Vec::new(alloc);
    let joined = view.add_edges(alloc, &mut edges)?;
    let mut text = Vec::new(alloc);
    add(&mut text, "digraph lockdep {\n  node [shape=box];\n")?;
    view.add_keys(&mut text, joined.as_slice())?;
    add_bytes(&mut text, edges.as_slice())?;
    view.add_doubles(&mut text, found.doubles())?;
    view.add_inversions(&mut text, found.inversions())?;
    add(&mut text, "}\n")?;
    Ok(text)
}

/// Writes the picture of settled facts, with the names of the keys that are in the table: all of them, or if
/// `findings` is set, only what is part of a circle, a double or an inversion.
pub fn write_picture<W: Write>(
    alloc: Global,
    w: &mut W,
    settled: &Settled,
    names: &KeyTable,
    findings: bool,
) -> Result<(), WriteFault>
    ensures ok { OnOk result ((text : List ℕ) × IsPicture (HasFact settled.now) findings names.now.names text
        × Appends (W.contents w.old) (W.contents w.new) text) }
    ensures err { IfErr result (StopsWriting (IsPicture (HasFact settled.now) findings names.now.names)
        (W.contents w.old) (W.contents w.new)) }
{
    match picture_text(alloc, settled, names, findings) {
        Ok(text) => write_text(w, text.as_slice()),
        Err(_) => Err(WriteFault::Memory),
    }
}
