//! The lines of verdicts: findings between types, each with what it was seen between.

ghost use Rattle.std.specs.Prelude.{◌++◌, ◌≡◌, IfOk, OnOk, codes, flat_map, string_bytes};
ghost use Rattle.ld_text.specs.Names.{is_nesting};
ghost use Rattle.ld_text.specs.Clauses.{between_text, in_order, nested_text, ranked, seen_text, verdict_block, verdict_lines};

use crate::Tried;
use crate::report::add_total;
use crate::verdicts::VerdictWording;
use crate::wording::Wording;
use ld_explain::{Between, Finding, Verdict, count_ranked};

impl Wording<'_> {
    // What was seen: a walk, or a key.
    pub(crate) fn add_seen(&self, text: &mut String, nested: &Finding) -> Tried<()>
        ensures { OnOk result (string_bytes text.new ≡ string_bytes text.old ++ seen_text self.now.names nested.now) }
    {
        match nested {
            Finding::Circle { walk, .. } => self.add_walk(text, walk),
            Finding::Double { key, .. } => text.push_str(self.key(*key)),
            Finding::Inversion { walk, .. } => self.add_walk(text, walk),
        }
    }

    // Where a finding between single locks comes from, and what speaks against it.
    pub(crate) fn add_nested(&self, text: &mut String, nested: &Finding) -> Tried<()>
        ensures { OnOk result (string_bytes text.new ≡ string_bytes text.old ++ nested_text self.now nested.now) }
    {
        self.add_origins(text, nested)?;
        self.add_notes(text, nested)
    }

    // A finding between single locks, after these words, of which there are some more at the line's end.
    pub(crate) fn add_seen_line(
        &self,
        text: &mut String,
        before: &str,
        nested: &Finding,
        after: &str,
    ) -> Tried<()>
        ensures { OnOk result (string_bytes text.new ≡ string_bytes text.old
            ++ (before.now ++ (seen_text self.now.names nested.now ++ (after.now ++ nested_text self.now nested.now)))) }
    {
        text.push_str(before)?;
        self.add_seen(text, nested)?;
        text.push_str(after)?;
        self.add_nested(text, nested)
    }

    // What a finding was seen between, in words for single locks.
    pub(crate) fn add_between(
        &self,
        text: &mut String,
        nesting: bool,
        between: &Between,
    ) -> Tried<()>
        ensures { OnOk result (string_bytes text.new ≡ string_bytes text.old ++ between_text self.now nesting between.now) }
    {
        match between {
            Between::Locks(nested) => {
                self.add_seen_line(text, "  seen between locks: ", nested, "\n")
            }
            Between::Perhaps(nested) => self.add_seen_line(
                text,
                "  perhaps seen between locks: ",
                nested,
                "; #rest is several locks\n",
            ),
            Between::Unknown => text.push_str(
                "  not known whether seen between locks: more than 256 keys lead to one another\n",
            ),
            Between::Classes => {
                text.push_str("  seen only between classes, not between single locks\n")
            }
            Between::Types => text.push_str(if nesting {
                "  seen only between types, as one type nested in itself: a note, and no finding\n"
            } else {
                "  seen only between types, not between classes\n"
            }),
        }
    }
}

impl VerdictWording<'_> {
    pub(crate) fn add_verdict(&self, text: &mut String, v: &Verdict) -> Tried<()>
        ensures { OnOk result (string_bytes text.new ≡ string_bytes text.old
            ++ verdict_block self.now.types.now self.now.locks.now v.now) }
    {
        self.types.add_head(text, &v.finding)?;
        self.types.add_origins(text, &v.finding)?;
        self.types.add_deadlock(text, &v.finding)?;
        self.locks
            .add_between(text, v.finding.is_nesting(), &v.between)?;
        self.types.add_notes(text, &v.finding)
    }

    pub(crate) fn add_ranked(&self, text: &mut String, rank: u8, v: &Verdict) -> Tried<()>
        ensures { OnOk result (string_bytes text.new ≡ string_bytes text.old
            ++ ranked (verdict_block self.now.types.now self.now.locks.now) rank v.now) }
    {
        if v.rank() == rank {
            self.add_verdict(text, v)
        } else {
            Ok(())
        }
    }

    pub(crate) fn add_rank(&self, text: &mut String, rank: u8, verdicts: &[Verdict]) -> Tried<()>
        ensures { OnOk result (string_bytes text.new ≡ string_bytes text.old
            ++ flat_map (ranked (verdict_block self.now.types.now self.now.locks.now) rank) verdicts.now) }
    {
        for v in verdicts {
            self.add_ranked(text, rank, v)?;
        }
        Ok(())
    }

    // All verdicts, by rank.
    pub(crate) fn add_ranks(&self, text: &mut String, verdicts: &[Verdict]) -> Tried<()>
        ensures { OnOk result (string_bytes text.new ≡ string_bytes text.old
            ++ in_order (verdict_block self.now.types.now self.now.locks.now) verdicts.now) }
    {
        self.add_rank(text, 0, verdicts)?;
        self.add_rank(text, 1, verdicts)?;
        self.add_rank(text, 2, verdicts)?;
        self.add_rank(text, 3, verdicts)?;
        self.add_rank(text, 4, verdicts)?;
        self.add_rank(text, 5, verdicts)
    }

    // The text of verdicts for people to read.
    pub(crate) fn lines(&self, verdicts: &[Verdict]) -> Tried<Vec<u8>>
        ensures { IfOk result (λ text. text.items ≡ verdict_lines self.now.types.now self.now.locks.now verdicts.now) }
    {
        let types = self.types;
        let mut text = String::new(types.alloc);
        let findings = verdicts.len() - count_ranked(verdicts, 5);
        add_total(&mut text, "findings", findings as u128)?;
        self.add_ranks(&mut text, verdicts)?;
        Ok(text.into_bytes())
    }
}
