//! Bits in words of 64, as slices of words.

ghost use Rattle.std.specs.Prelude.{◌≡◌, ℕ, ◌+◌, ◌*◌, ◌^◌, ◌<◌, ◌≤◌, ◌≢◌, ◌||◌, ◌&&◌, ◌==◌, not, length, IsTrue, IsFalse, IsNone, IfSome};
ghost use Rattle.std.specs.Int.{bit_at};
ghost use Rattle.ld_facts.specs.Inside.Bits.{has_bit, count_below};

use crate::places::{PLACES, ROW_WORDS, Row};

/// Whether bit `n` is set.
pub fn has(words: &[u64], n: usize) -> bool
    requires { n < 64 * length words.now }
    ensures { result ≡ has_bit words.now n }
{
    words[n / 64] >> (n % 64) & 1 == 1
}

/// Sets bit `n`.
pub fn insert(words: &mut [u64], n: usize)
    requires { n < 64 * length words.old }
    ensures len { length words.new ≡ length words.old }
    ensures set { IsTrue (has_bit words.new n) }
    ensures others { (k : ℕ) → k ≢ n → has_bit words.new k ≡ has_bit words.old k }
{
    words[n / 64] |= 1 << (n % 64);
}

/// Sets each bit that is set in `other`.
pub fn unite(words: &mut [u64], other: &[u64])
    requires { length words.old ≡ length other.now }
    ensures len { length words.new ≡ length words.old }
    ensures bits { (k : ℕ) →
        has_bit words.new k ≡ (has_bit words.old k || has_bit other.now k) }
{
    for i in 0..words.len() {
        words[i] |= other[i];
    }
}

/// Clears each bit that is not set in `other`.
pub fn intersect(words: &mut [u64], other: &[u64])
    requires { length words.old ≡ length other.now }
    ensures len { length words.new ≡ length words.old }
    ensures bits { (k : ℕ) →
        has_bit words.new k ≡ (has_bit words.old k && has_bit other.now k) }
{
    for i in 0..words.len() {
        words[i] &= other[i];
    }
}

/// Clears each bit that is set in `other`.
pub fn remove(words: &mut [u64], other: &[u64])
    requires { length words.old ≡ length other.now }
    ensures len { length words.new ≡ length words.old }
    ensures bits { (k : ℕ) →
        has_bit words.new k ≡ (has_bit words.old k && not (has_bit other.now k)) }
{
    for i in 0..words.len() {
        words[i] &= !other[i];
    }
}

/// The first bit that is set here and not in `taken`.
pub fn first_beyond(words: &[u64], taken: &[u64]) -> Option<usize>
    requires same_len { length words.now ≡ length taken.now }
    requires fits { 64 * length words.now < 2 ^ 64 }
    ensures none { IsNone result
        → (k : ℕ) → IsTrue (has_bit words.now k) → IsTrue (has_bit taken.now k) }
    ensures some { IfSome result (λ p. (p < 64 * length words.now)
        × IsTrue (has_bit words.now p) × IsFalse (has_bit taken.now p)) }
    ensures first { IfSome result (λ p. (k : ℕ) → k < p → IsTrue (has_bit words.now k) → IsTrue (has_bit taken.now k)) }
{
    for i in 0..words.len() {
        let fresh = words[i] & !taken[i];
        if fresh != 0 {
            return Some(i * 64 + fresh.trailing_zeros() as usize);
        }
    }
    None
}

// Whether bit `k` of the word is set.
pub(crate) fn is_set(word: u64, k: usize) -> bool
    requires { k < 64 }
    ensures { result ≡ (bit_at word k == 1) }
{
    word >> k & 1 == 1
}

// Whether each bit of the word is set in the other.
pub(crate) fn is_within(word: u64, other: u64) -> bool
    ensures { IsTrue result → (k : ℕ) → k < 64 → bit_at word k ≡ 1 → bit_at other k ≡ 1 }
{
    word & !other == 0
}

/// How many bits are set.
pub fn count(row: &Row) -> u64
    ensures { result ≡ count_below (has_bit row.now) PLACES }
{
    let mut count = 0;
    for i in 0..ROW_WORDS {
        count += u64::from(row[i].count_ones());
    }
    count
}

/// Whether a bit is set in both.
pub fn meet(row: &[u64], other: &[u64]) -> bool
    requires { length row.now ≡ length other.now }
    ensures some { IsTrue result
        → (k : ℕ) × IsTrue (has_bit row.now k) × IsTrue (has_bit other.now k) }
    ensures none { IsFalse result
        → (k : ℕ) → IsTrue (has_bit row.now k) → IsTrue (has_bit other.now k) → ⊥ }
{
    for i in 0..row.len() {
        if row[i] & other[i] != 0 {
            return true;
        }
    }
    false
}
