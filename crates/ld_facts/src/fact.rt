//! Single facts, and their numbers as bits.

ghost use Rattle.std.specs.Prelude.{◌≡◌, ◌+◌, ◌*◌, ◌<◌, ◌≤◌, ◌↔◌, IsTrue, length, slice_index};
ghost use Rattle.ld_facts.specs.Numbers.{kind_number, irq_number, mark_index, fact_number, dependency_total, bit_total};
ghost use Rattle.ld_facts.specs.FactBits.{FactBelow};
ghost use Rattle.ld_facts.specs.Renumbered.{fact_by};
ghost use Rattle.ld_facts.specs.WordPairs.{word_total};
ghost use Rattle.ld_trace.specs.declared.key_id.TheConstants.{MAX_KEYS};

use crate::dependency::kind_at;
use ld_task::{Kind, Mark};
use ld_trace::Irq;

/// How many interrupt states there are.
pub const STATE_COUNT: usize = 2;

/// The interrupt states, by their numbers. This is the report's order too.
pub const STATES: [Irq; STATE_COUNT] = [Irq::Hard, Irq::Soft];

// How many marks a key can have: that it is used, and four for each state.
const MARKS_OF_KEY: usize = 9;

/// A dependency between two keys, or a mark on one.
#[derive(Clone, Copy, PartialEq, Eq, Debug)]
pub enum Fact {
    Dependency { from: u16, to: u16, kind: Kind },
    Marked { key: u16, mark: Mark },
}

impl Fact {
    /// Whether the keys of the fact are below the bound.
    pub fn is_below(self, keys: u16) -> bool
        ensures { IsTrue result ↔ FactBelow keys self }
    {
        match self {
            Fact::Dependency { from, to, .. } => from < keys && to < keys,
            Fact::Marked { key, .. } => key < keys,
        }
    }

    /// The number of the fact among all those about keys below `keys`, which is at most `MAX_KEYS`: below 264,448 for
    /// 256 keys, and below 268,509,184 for the most. The dependencies come first. The caller makes sure that the fact's
    /// keys are below `keys`.
    pub fn number(self, keys: u16) -> usize
        requires few { keys ≤ MAX_KEYS }
        requires below { FactBelow keys self }
        ensures value { result ≡ fact_number keys self }
        ensures within { result < bit_total keys }
    {
        match self {
            Fact::Dependency { from, to, kind } => dependency_number(keys, from, to, kind),
            Fact::Marked { key, mark } => mark_number(keys, key, mark),
        }
    }

    /// The fact about keys below `keys` that has this number.
    pub fn of_number(keys: u16, n: usize) -> Fact
        requires few { keys ≤ MAX_KEYS }
        requires within { n < bit_total keys }
        ensures below { FactBelow keys result }
        ensures number { fact_number keys result ≡ n }
    {
        let keys = usize::from(keys);
        let dependencies = keys * keys * 4;
        if n < dependencies {
            Fact::Dependency {
                from: (n / 4 / keys) as u16,
                to: (n / 4 % keys) as u16,
                kind: kind_at(n % 4),
            }
        } else {
            let n = n - dependencies;
            Fact::Marked {
                key: (n / MARKS_OF_KEY) as u16,
                mark: mark_at(n % MARKS_OF_KEY),
            }
        }
    }

    /// The same fact about the keys that stand at these places of a list.
    pub fn at_places(self, keys: &[u16]) -> Fact
        requires { FactBelow (length keys.now) self }
        ensures { result ≡ fact_by (slice_index keys.now) self }
    {
        match self {
            Fact::Dependency { from, to, kind } => Fact::Dependency {
                from: keys[usize::from(from)],
                to: keys[usize::from(to)],
                kind,
            },
            Fact::Marked { key, mark } => Fact::Marked {
                key: keys[usize::from(key)],
                mark,
            },
        }
    }
}

// The number of a dependency's bit.
fn dependency_number(keys: u16, from: u16, to: u16, kind: Kind) -> usize
    requires few { keys ≤ MAX_KEYS }
    requires from { from < keys }
    requires to { to < keys }
    ensures value { result ≡ fact_number keys (Fact.Dependency from to kind) }
    ensures within { result < dependency_total keys }
{
    (usize::from(from) * usize::from(keys) + usize::from(to)) * 4 + kind_number(kind)
}

// The number of a mark's bit.
fn mark_number(keys: u16, key: u16, mark: Mark) -> usize
    requires few { keys ≤ MAX_KEYS }
    requires key { key < keys }
    ensures value { result ≡ fact_number keys (Fact.Marked key mark) }
    ensures within { result < bit_total keys }
{
    first_mark(keys, key) + mark_index(mark)
}

// The number of the bit of a key's first mark. The nine marks of a key are next to each other.
pub(crate) fn first_mark(keys: u16, key: u16) -> usize
    requires few { keys ≤ MAX_KEYS }
    requires key { key < keys }
    ensures value { result ≡ dependency_total keys + key * 9 }
    ensures within { result + 9 ≤ bit_total keys }
{
    let n = usize::from(keys);
    n * n * 4 + usize::from(key) * MARKS_OF_KEY
}

/// How many facts about keys below `keys` there can be: 264,448 for 256 keys.
pub fn fact_total(keys: u16) -> usize
    requires { keys ≤ MAX_KEYS }
    ensures { result ≡ bit_total keys }
{
    let n = usize::from(keys);
    n * n * 4 + n * MARKS_OF_KEY
}

/// How many words have a bit for each fact about keys below `keys`: 4,132 for 256 keys.
pub fn word_total(keys: u16) -> usize
    requires { keys ≤ MAX_KEYS }
    ensures { result ≡ word_total keys }
{
    (fact_total(keys) + 63) / 64
}

// The place of a kind among the four of its keys.
pub(crate) fn kind_number(kind: Kind) -> usize
    ensures value { result ≡ kind_number kind }
    ensures below { result < 4 }
{
    match kind {
        Kind::Er => 0,
        Kind::En => 1,
        Kind::Sr => 2,
        Kind::Sn => 3,
    }
}

// The place of a mark among the nine of its key.
pub(crate) fn mark_index(mark: Mark) -> usize
    ensures value { result ≡ mark_index mark }
    ensures below { result < 9 }
{
    match mark {
        Mark::Used => 0,
        Mark::UsedIn { irq, read } => 1 + irq_number(irq) * 4 + usize::from(read),
        Mark::Enabled { irq, read } => 3 + irq_number(irq) * 4 + usize::from(read),
    }
}

// The mark with that place among the nine of its key.
fn mark_at(n: usize) -> Mark
    requires { n < 9 }
    ensures { mark_index result ≡ n }
{
    let irq = if n < 5 { Irq::Hard } else { Irq::Soft };
    match n {
        0 => Mark::Used,
        1 | 5 => Mark::UsedIn { irq, read: false },
        2 | 6 => Mark::UsedIn { irq, read: true },
        3 | 7 => Mark::Enabled { irq, read: false },
        _ => Mark::Enabled { irq, read: true },
    }
}

/// The number of a state.
pub fn irq_number(irq: Irq) -> usize
    ensures value { result ≡ irq_number irq }
    ensures below { result < 2 }
{
    match irq {
        Irq::Hard => 0,
        Irq::Soft => 1,
    }
}
