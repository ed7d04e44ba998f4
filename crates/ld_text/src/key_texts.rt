//! The keys as lines name them.

ghost use Rattle.std.specs.Prelude.{[], ◌++◌, ◌≡◌, IfOk, OnOk, map, slice_get, string_bytes, unwrap_or};
ghost use Rattle.ld_text.specs.Names.{name_at};
ghost use Rattle.ld_text.specs.Clauses.{key_text};

use crate::Tried;
use crate::words::name_of;
use ld_trace::{KeyId, KeyTable};
use std::alloc::Global;
use std::marker::Model;

/// Each key of a table as lines name it, in order of their numbers. They are made once, since a report may have hundreds of
/// thousands of lines.
#[derive(Drop)]
pub(crate) struct KeyTexts {
    texts: Vec<String>,
}

impl Model for KeyTexts {
    ghost use Rattle.std.specs.Prelude.{List, map, string_bytes, ℕ};

    ghost Value = { List (List ℕ) };

    ghost view = { λ t. map string_bytes t.texts.items };
}

impl KeyTexts {
    /// Those of the keys of the table.
    pub(crate) fn of(alloc: Global, names: &KeyTable) -> Tried<KeyTexts>
        ensures { IfOk result (λ texts. texts ≡ map key_text names.now.names) }
    {
        let mut texts = Vec::with_capacity(alloc, names.len())?;
        for number in 0..names.len() {
            if let Some(key) = KeyId::of_many(number as u16) {
                texts.push(text_of(alloc, names, key)?)?;
            }
        }
        Ok(KeyTexts { texts })
    }

    /// A key. One that isn't in the table has an empty name.
    pub(crate) fn text(&self, key: KeyId) -> &str
        ensures { result.now ≡ unwrap_or (slice_get self.now key) (key_text ([], 0)) }
    {
        match self.texts.get(usize::from(key.get())) {
            Some(known) => known.as_str(),
            None => "/0",
        }
    }

    /// Appends a key. One that isn't in the table has an empty name.
    pub(crate) fn add(&self, text: &mut String, key: KeyId) -> Tried<()>
        ensures { OnOk result (string_bytes text.new ≡ string_bytes text.old
            ++ unwrap_or (slice_get self.now key) (key_text ([], 0))) }
    {
        text.push_str(self.text(key))
    }
}

fn text_of(alloc: Global, names: &KeyTable, key: KeyId) -> Tried<String>
    ensures { IfOk result (λ text. string_bytes text ≡ key_text (name_at names.now.names key)) }
{
    let (name, sub) = name_of(names, key);
    let mut text = String::new(alloc);
    write!(text, "{name}/{sub}")?;
    Ok(text)
}
