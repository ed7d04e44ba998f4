//! Members of JSON objects.

ghost use Rattle.std.specs.Prelude.{[], ◌∷◌, OnOk};
ghost use Rattle.ld_text.specs.Names.{string};
ghost use Rattle.ld_text.specs.Clauses.{Adds, list_member, number_member, text_member};

use crate::Tried;
use json::Writer;

pub(crate) fn add_text(w: &mut Writer, name: &str, value: &str) -> Tried<()>
    ensures { OnOk result (Adds w.old w.new (text_member name.now value.now)) }
{
    w.key(name)?;
    w.string(value)
}

pub(crate) fn add_number(w: &mut Writer, name: &str, value: u64) -> Tried<()>
    ensures { OnOk result (Adds w.old w.new (number_member name.now value)) }
{
    w.key(name)?;
    w.u64(value)
}

// A member whose value is a list of one text.
pub(crate) fn add_only(w: &mut Writer, name: &str, value: &str) -> Tried<()>
    ensures { OnOk result (Adds w.old w.new (list_member name.now (string value.now ∷ []))) }
{
    w.key(name)?;
    w.begin_array()?;
    w.string(value)?;
    w.end_array()
}

// A member whose value is a list of two texts.
pub(crate) fn add_both(w: &mut Writer, name: &str, first: &str, second: &str) -> Tried<()>
    ensures { OnOk result (Adds w.old w.new (list_member name.now (string first.now ∷ string second.now ∷ []))) }
{
    w.key(name)?;
    w.begin_array()?;
    w.string(first)?;
    w.string(second)?;
    w.end_array()
}
