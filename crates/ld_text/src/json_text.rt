//! The findings as JSON, for programs to read: what the explanation says, an object for each finding.

ghost use Rattle.std.specs.Prelude.{[], ◌++◌, ◌≡◌, IfOk, OnOk, codes, drop, flat_map};
ghost use Rattle.ld_text.specs.Clauses.{finding_line, json_text};

use crate::Tried;
use crate::wording::Wording;
use json::Writer;
use ld_explain::Finding;
use std::alloc::Global;
use std::mem::replace;

// What stands before the findings, between each two, and after them.
const HEAD: &str = "{\"lockdep\":1,\"findings\":[";

const BETWEEN: &str = ",\n";

const TAIL: &str = "\n]}\n";

pub(crate) fn without_first(bytes: &[u8]) -> &[u8]
    ensures { result.now ≡ drop 1 bytes.now }
{
    bytes.get(1..).unwrap_or(&[])
}

// The text with these lines, each of which begins with a comma.
fn text_with(alloc: Global, lines: &[u8]) -> Tried<Vec<u8>>
    ensures { IfOk result (λ text. text.items
        ≡ codes "{\"lockdep\":1,\"findings\":[" ++ (drop 1 lines.now ++ codes "\n]}\n")) }
{
    let mut text = Vec::new(alloc);
    text.extend_from_slice(HEAD.as_bytes())?;
    text.extend_from_slice(without_first(lines))?;
    text.extend_from_slice(TAIL.as_bytes())?;
    Ok(text)
}

// A writer after the text, on a line of its own, which takes the text.
pub(crate) fn begin_line(alloc: Global, text: &mut Vec<u8>) -> Tried<Writer>
    ensures { IfOk result (λ w. (w.before ≡ text.old.items ++ codes ",\n") × (w.tokens ≡ [])) }
{
    text.extend_from_slice(BETWEEN.as_bytes())?;
    Ok(Writer::new(replace(text, Vec::new(alloc))))
}

impl Wording<'_> {
    pub(crate) fn add_object(&self, text: &mut Vec<u8>, finding: &Finding) -> Tried<()>
        ensures { OnOk result (text.new.items ≡ text.old.items ++ finding_line self.now finding.now) }
    {
        let mut w = begin_line(self.alloc, text)?;
        self.write_finding(&mut w, finding)?;
        *text = w.into_inner();
        Ok(())
    }

    pub(crate) fn add_objects(&self, text: &mut Vec<u8>, findings: &[Finding]) -> Tried<()>
        ensures { OnOk result (text.new.items ≡ text.old.items ++ flat_map (finding_line self.now) findings.now) }
    {
        for finding in findings {
            self.add_object(text, finding)?;
        }
        Ok(())
    }

    // The text of findings for programs to read.
    pub(crate) fn json(&self, findings: &[Finding]) -> Tried<Vec<u8>>
        ensures { IfOk result (λ text. text.items ≡ json_text self.now findings.now) }
    {
        let mut lines = Vec::new(self.alloc);
        self.add_objects(&mut lines, findings)?;
        text_with(self.alloc, lines.as_slice())
    }
}
