ghost use Rattle.std.specs.Prelude.{◌≡◌, ◌≢◌, ℕ, ◌+◌, ◌*◌, ◌<◌, ◌≤◌, ◌⊎◌, ◌↔◌, length, get_or, ◌^◌, IsTrue, bit_and};
ghost use Rattle.bit_rows.specs.Words.{mixed_word, word_bit, Mixed};

use crate::lanes::{LANES, block_meets, mix_block};

/// How a row is changed by another: it takes its ones, becomes equal to it, or loses its ones.
#[derive(Clone, Copy, Drop)]
pub(crate) enum Mix {
    Or,
    Copy,
    Minus,
}

fn mixed(mix: Mix, into: u64, from: u64) -> u64
    ensures { result ≡ mixed_word mix into from }
{
    match mix {
        Mix::Or => into | from,
        Mix::Copy => from,
        Mix::Minus => into & !from,
    }
}

/// The word with one bit set, or cleared.
pub(crate) fn with_bit(word: u64, bit: u32, on: bool) -> u64
    requires { bit < 64 }
    ensures fits { result < 2 ^ 64 }
    ensures here { word_bit result bit ≡ on }
    ensures others { (k : ℕ) → k < 64 → k ≢ bit → word_bit result k ≡ word_bit word k }
{
    if on {
        word | (1u64 << bit)
    } else {
        word & !(1u64 << bit)
    }
}

/// Changes so many words, from a place on, by as many others, and tells whether one is another then: one word at a time.
fn mix_each(
    mix: Mix,
    words: &mut [u64],
    into: usize,
    others: &[u64],
    from: usize,
    count: usize,
) -> bool
    requires into_in { into + count ≤ length words.old }
    requires from_in { from + count ≤ length others.now }
    ensures { Mixed mix words.old words.new into others.now from count result }
{
    let mut changed = false;
    for i in 0..count {
        let old = words[into + i];
        let new = mixed(mix, old, others[from + i]);
        changed = changed | (new != old);
        words[into + i] = new;
    }
    changed
}

/// The same for so many blocks of words, one block at a time.
fn mix_blocks(
    mix: Mix,
    words: &mut [u64],
    into: usize,
    others: &[u64],
    from: usize,
    blocks: usize,
) -> bool
    requires into_in { into + blocks * 8 ≤ length words.old }
    requires from_in { from + blocks * 8 ≤ length others.now }
    ensures { Mixed mix words.old words.new into others.now from (blocks * 8) result }
{
    let mut changed = false;
    for block in 0..blocks {
        let at = block * LANES;
        let now = mix_block(mix, words, into + at, others, from + at);
        changed = changed | now;
    }
    changed
}

/// Changes so many words, from a place on, by as many others, and tells whether one is another then.
pub(crate) fn mix_others(
    mix: Mix,
    words: &mut [u64],
    into: usize,
    others: &[u64],
    from: usize,
    count: usize,
) -> bool
    requires into_in { into + count ≤ length words.old }
    requires from_in { from + count ≤ length others.now }
    ensures { Mixed mix words.old words.new into others.now from count result }
{
    let blocks = count / LANES;
    let done = blocks * LANES;
    let first = mix_blocks(mix, words, into, others, from, blocks);
    let rest = mix_each(mix, words, into + done, others, from + done, count - done);
    first | rest
}

/// The same where the other words stand in the same list.
pub(crate) fn mix_words(mix: Mix, words: &mut [u64], into: usize, from: usize, count: usize) -> bool
    requires into_in { into + count ≤ length words.old }
    requires from_in { from + count ≤ length words.old }
    requires apart { (into + count ≤ from) ⊎ (from + count ≤ into) }
    ensures { Mixed mix words.old words.new into words.old from count result }
{
    if into < from {
        let (front, back) = words.split_at_mut(from);
        mix_others(mix, front, into, back, 0, count)
    } else {
        let (front, back) = words.split_at_mut(into);
        mix_others(mix, back, 0, front, from, count)
    }
}

fn each_meets(words: &[u64], a: usize, b: usize, count: usize) -> bool
    requires a_in { a + count ≤ length words.now }
    requires b_in { b + count ≤ length words.now }
    ensures { IsTrue result ↔ ((i : ℕ) × (i < count) × (bit_and (get_or words.now (a + i) 0) (get_or words.now (b + i) 0) ≢ 0)) }
{
    for i in 0..count {
        if words[a + i] & words[b + i] != 0 {
            return true;
        }
    }
    false
}

fn blocks_meet(words: &[u64], a: usize, b: usize, blocks: usize) -> bool
    requires a_in { a + blocks * 8 ≤ length words.now }
    requires b_in { b + blocks * 8 ≤ length words.now }
    ensures { IsTrue result ↔ ((i : ℕ) × (i < blocks * 8) × (bit_and (get_or words.now (a + i) 0) (get_or words.now (b + i) 0) ≢ 0)) }
{
    for block in 0..blocks {
        let at = block * LANES;
        if block_meets(words, a + at, b + at) {
            return true;
        }
    }
    false
}

/// Whether two of so many words have a common bit.
pub(crate) fn words_meet(words: &[u64], a: usize, b: usize, count: usize) -> bool
    requires a_in { a + count ≤ length words.now }
    requires b_in { b + count ≤ length words.now }
    ensures { IsTrue result ↔ ((i : ℕ) × (i < count) × (bit_and (get_or words.now (a + i) 0) (get_or words.now (b + i) 0) ≢ 0)) }
{
    let blocks = count / LANES;
    let done = blocks * LANES;
    blocks_meet(words, a, b, blocks) || each_meets(words, a + done, b + done, count - done)
}
