//! The text of a report.

ghost use Rattle.std.specs.Prelude.{◌++◌, ◌≡◌, IfErr, IfOk, List, OnOk, flat_map, length, map, string_bytes, sum_by, ℕ};
ghost use Rattle.ld_text.specs.Names.{Appends, HasFact, name_at};
ghost use Rattle.ld_text.specs.Clauses.{AreTotals, GrowsBy, InSequence, InTurn, IsReport, IsUsageCharacter, IsUsageLine, ShowsBecause, StopsWriting, circle_line, clean_line, double_line, findings, forms, inversion_line, key_text, total_line, usage_character};

use crate::key_texts::KeyTexts;
use crate::words::{kind_word, name_of};
use crate::{Tried, WriteFault, because, sorted_keys, write_text};
use ld_explain::{Dependency, Found};
use ld_graph::Mark;
use ld_parts::Settled;
use ld_trace::{Irq, KeyId, KeyTable, RawTrace, event_count};
use std::alloc::Global;
use std::io::Write;

// The four columns of a usage line: each state, not read and read.
pub(crate) const FORMS: [(Irq, bool); 4] = [
    (Irq::Hard, false),
    (Irq::Hard, true),
    (Irq::Soft, false),
    (Irq::Soft, true),
];

// What a report is written from.
#[derive(Clone, Copy)]
struct ReportView<'a> {
    // The facts, with what they mean.
    settled: &'a Settled,
    // The names of the keys.
    names: &'a KeyTable,
    // The keys as lines name them.
    texts: &'a KeyTexts,
    // All keys, in the order of their names.
    keys: &'a [KeyId],
    ghost texts_are: { texts.now ≡ map key_text names.now.names },
}

impl ReportView<'_> {
    fn add_key(self, text: &mut String, key: KeyId) -> Tried<()>
        ensures { OnOk result (string_bytes text.new
            ≡ string_bytes text.old ++ key_text (name_at self.entry.names.now.names key)) }
    {
        self.texts.add(text, key)
    }

    fn add_circle(self, text: &mut String, d: &Dependency) -> Tried<()>
        ensures { OnOk result (string_bytes text.new
            ≡ string_bytes text.old ++ circle_line self.entry.names.now.names d.now) }
    {
        text.push_str("circle ")?;
        self.add_key(text, d.from)?;
        text.push_str(" ")?;
        text.push_str(kind_word(d.kind))?;
        text.push_str(" ")?;
        self.add_key(text, d.to)?;
        text.push_str("\n")
    }

    fn add_circles(self, text: &mut String, circles: &[Dependency]) -> Tried<()>
        ensures { OnOk result (string_bytes text.new
            ≡ string_bytes text.old ++ flat_map (circle_line self.entry.names.now.names) circles.now) }
    {
        for d in circles {
            self.add_circle(text, d)?;
        }
        Ok(())
    }

    // The line of a shortest circle, if there is one. Clean facts aren't asked for it.
    fn add_because(self, text: &mut String) -> Tried<()>
        ensures { OnOk result (GrowsBy (ShowsBecause (HasFact self.entry.settled.now) self.entry.names.now.names)
            (string_bytes text.old) (string_bytes text.new)) }
    {
        if self.settled.is_clean() {
            return Ok(());
        }
        ld_graph::shortest_circles_turn();
        match self.settled.shortest_circle() {
            Some(circle) => because::add_line(text, self.names, &circle),
            None => Ok(()),
        }
    }

    fn add_double(self, text: &mut String, irq: Irq, key: KeyId) -> Tried<()>
        ensures { OnOk result (string_bytes text.new
            ≡ string_bytes text.old ++ double_line self.entry.names.now.names irq key) }
    {
        let (name, sub) = name_of(self.names, key);
        let state = irq.word();
        writeln!(text, "double {state} {name}/{sub}")
    }

    fn add_doubles(self, text: &mut String, doubles: &[(Irq, KeyId)]) -> Tried<()>
        ensures { OnOk result (string_bytes text.new ≡ string_bytes text.old
            ++ flat_map (λ x. double_line self.entry.names.now.names x.0 x.1) doubles.now) }
    {
        for double in doubles {
            self.add_double(text, double.0, double.1)?;
        }
        Ok(())
    }

    fn add_inversion(self, text: &mut String, irq: Irq, a: KeyId, b: KeyId) -> Tried<()>
        ensures { OnOk result (string_bytes text.new
            ≡ string_bytes text.old ++ inversion_line self.entry.names.now.names irq a b) }
    {
        text.push_str("inversion ")?;
        text.push_str(irq.word())?;
        text.push_str(" ")?;
        self.add_key(text, a)?;
        text.push_str(" ")?;
        self.add_key(text, b)?;
        text.push_str("\n")
    }

    fn add_inversions(self, text: &mut String, inversions: &[(Irq, (KeyId, KeyId))]) -> Tried<()>
        ensures { OnOk result (string_bytes text.new ≡ string_bytes text.old
            ++ flat_map (λ x. inversion_line self.entry.names.now.names x.0 x.1.0 x.1.1) inversions.now) }
    {
        for inversion in inversions {
            let (a, b) = inversion.1;
            self.add_inversion(text, inversion.0, a, b)?;
        }
        Ok(())
    }

    // The four characters of a key's usage line.
    fn add_characters(self, text: &mut String, key: KeyId) -> Tried<()>
        ensures { OnOk result (GrowsBy
            (InTurn (λ form. IsUsageCharacter (HasFact self.entry.settled.now) key form.0 form.1) forms)
            (string_bytes text.old) (string_bytes text.new)) }
    {
        for form in FORMS {
            text.push_str(usage_character(self.settled, key, form.0, form.1))?;
        }
        Ok(())
    }

    fn add_usage_line(self, text: &mut String, key: KeyId) -> Tried<()>
        ensures { OnOk result (GrowsBy (IsUsageLine (HasFact self.entry.settled.now) self.entry.names.now.names key)
            (string_bytes text.old) (string_bytes text.new)) }
    {
        let (name, sub) = name_of(self.names, key);
        write!(text, "usage {name}/{sub} {{")?;
        self.add_characters(text, key)?;
        text.push_str("}\n")?;
        Ok(())
    }

    fn add_usage(self, text: &mut String) -> Tried<()>
        ensures { OnOk result (GrowsBy
            (InTurn (IsUsageLine (HasFact self.entry.settled.now) self.entry.names.now.names) self.entry.keys.now)
            (string_bytes text.old) (string_bytes text.new)) }
    {
        for key in self.keys {
            self.add_usage_line(text, *key)?;
        }
        Ok(())
    }

    // The findings, after the usage lines.
    fn add_findings(self, text: &mut String, found: &Found) -> Tried<()>
        ensures { OnOk result (GrowsBy
            (InSequence (findings (HasFact self.entry.settled.now) self.entry.names.now.names found.now))
            (string_bytes text.old) (string_bytes text.new)) }
    {
        self.add_circles(text, found.circles())?;
        self.add_because(text)?;
        self.add_doubles(text, found.doubles())?;
        self.add_inversions(text, found.inversions())?;
        Ok(())
    }

    // The five lines that every report begins with.
    fn add_totals(self, text: &mut String, traces: usize, events: u128) -> Tried<()>
        ensures { OnOk result (GrowsBy (AreTotals (HasFact self.entry.settled.now) traces events
            (length self.entry.names.now.names)) (string_bytes text.old) (string_bytes text.new)) }
    {
        add_total(text, "traces", traces as u128)?;
        add_total(text, "events", events)?;
        add_total(text, "keys", self.names.len() as u128)?;
        add_total(text, "dependencies", self.settled.dependencies() as u128)?;
        add_clean(text, self.settled.is_clean())
    }
}

// The text of the report of the settled facts, from this number of traces and events.
fn report_text(
    alloc: Global,
    settled: &Settled,
    names: &KeyTable,
    traces: usize,
    events: u128,
) -> Tried<String>
    ensures { IfOk result (λ text. IsReport (HasFact settled.now) traces events names.now.names (string_bytes text)) }
{
    let keys = sorted_keys(alloc, names)?;
    let keys = keys.as_slice();
    let found = Found::of(alloc, settled, keys)?;
    let texts = KeyTexts::of(alloc, names)?;
    let view = ReportView {
        settled,
        names,
        texts: &texts,
        keys,
    };
    let mut text = String::new(alloc);
    view.add_totals(&mut text, traces, events)?;
    view.add_usage(&mut text)?;
    view.add_findings(&mut text, &found)?;
    Ok(text)
}

pub(crate) fn add_total(text: &mut String, word: &str, number: u128) -> Tried<()>
    ensures { OnOk result (string_bytes text.new ≡ string_bytes text.old ++ total_line word.now number) }
{
    writeln!(text, "{word} {number}")
}

fn add_clean(text: &mut String, clean: bool) -> Tried<()>
    ensures { OnOk result (string_bytes text.new ≡ string_bytes text.old ++ clean_line clean) }
{
    text.push_str(if clean { "clean yes\n" } else { "clean no\n" })
}

// What the usage line of a key says of one state and form.
pub(crate) fn usage_character(settled: &Settled, key: KeyId, irq: Irq, read: bool) -> &'static str
    ensures { IsUsageCharacter (HasFact settled.now) key irq read result.now }
{
    let enabled = settled.has_mark(key.get(), Mark::Enabled { irq, read });
    let used_in = settled.has_mark(key.get(), Mark::UsedIn { irq, read });
    character_of(enabled, used_in)
}

// The usage character of a state that a key was used with enabled, and used in, or not.
fn character_of(enabled: bool, used_in: bool) -> &'static str
    ensures { result.now ≡ usage_character enabled used_in }
{
    match (enabled, used_in) {
        (true, true) => "?",
        (false, true) => "-",
        (true, false) => "+",
        (false, false) => ".",
    }
}

/// Writes the report of settled facts that come from these traces, with the names of the keys that are in the table.
pub fn write_report<W: Write>(
    alloc: Global,
    w: &mut W,
    settled: &Settled,
    traces: &[RawTrace],
    names: &KeyTable,
) -> Result<(), WriteFault>
    ensures ok { OnOk result ((text : List ℕ)
        × IsReport (HasFact settled.now) (length traces.now) (sum_by length traces.now) names.now.names text
        × Appends (W.contents w.old) (W.contents w.new) text) }
    ensures err { IfErr result (StopsWriting
        (IsReport (HasFact settled.now) (length traces.now) (sum_by length traces.now) names.now.names)
        (W.contents w.old) (W.contents w.new)) }
{
    let events = event_count(traces);
    match report_text(alloc, settled, names, traces.len(), events) {
        Ok(text) => write_text(w, text.as_str().as_bytes()),
        Err(_) => Err(WriteFault::Memory),
    }
}
