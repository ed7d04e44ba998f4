//! The line of a circle.

ghost use Rattle.std.specs.Prelude.{◌++◌, ◌-◌, ◌<◌, ◌≡◌, ◌≤◌, OnOk, Some, drop, flat_map, length, slice_get, string_bytes, take};
ghost use Rattle.ld_text.specs.Names.{IsFirstBest, arrow};
ghost use Rattle.ld_text.specs.Clauses.{TellsTurned, member_text, starts_before};

use crate::Tried;
use crate::order::compare;
use crate::words::{kind_word, name_of};
use ld_graph::{Circle, Kind};
use ld_trace::{KeyId, KeyTable};

// The member at this place: the key that it starts at, the key that it leads to, and its kind.
fn member(circle: &Circle, i: usize) -> (KeyId, KeyId, Kind)
    requires { i < length circle.now }
    ensures { slice_get circle.now i ≡ Some (arrow result.0 result.1 result.2) }
{
    match circle.get(i) {
        Some((from, to, kind)) => match (KeyId::of_many(from), KeyId::of_many(to)) {
            (Some(from), Some(to)) => (from, to, kind),
            _ => unreachable!(),
        },
        None => unreachable!(),
    }
}

// The place of the first member that starts at the least key, in the order of names.
fn least_start(names: &KeyTable, circle: &Circle) -> usize
    requires { 0 < length circle.now }
    ensures { IsFirstBest (starts_before names.now.names) circle.now (length circle.now) result }
{
    let mut least = 0;
    for i in 1..circle.len() {
        let key = member(circle, i).0;
        let least_key = member(circle, least).0;
        if compare(names, key, least_key).is_lt() {
            least = i;
        }
    }
    least
}

// The members from `start` to `end`, each by its kind and the key that it leads to.
fn add_members(
    text: &mut String,
    names: &KeyTable,
    circle: &Circle,
    start: usize,
    end: usize,
) -> Tried<()>
    requires order { start ≤ end }
    requires within { end ≤ length circle.now }
    ensures { OnOk result (string_bytes text.new ≡ string_bytes text.old
        ++ flat_map (member_text names.now.names) (take (end - start) (drop start circle.now))) }
{
    for i in start..end {
        let (_, to, kind) = member(circle, i);
        let (name, sub) = name_of(names, to);
        let kind = kind_word(kind);
        write!(text, " {kind} {name}/{sub}")?;
    }
    Ok(())
}

/// The line of a circle, turned to begin at the least of its keys in the report's order.
pub(crate) fn add_line(text: &mut String, names: &KeyTable, circle: &Circle) -> Tried<()>
    requires { 0 < length circle.now }
    ensures { OnOk result (TellsTurned names.now.names circle.now (string_bytes text.old) (string_bytes text.new)) }
{
    let least = least_start(names, circle);
    let (name, sub) = name_of(names, member(circle, least).0);
    write!(text, "because {name}/{sub}")?;
    add_members(text, names, circle, least, circle.len())?;
    add_members(text, names, circle, 0, least)?;
    text.push_str("\n")?;
    Ok(())
}
