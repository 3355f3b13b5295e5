//! Eight words of a row at a time.
ghost use Rattle.std.specs.Prelude.{◌≡◌, ◌≢◌, ℕ, ◌+◌, ◌<◌, ◌≤◌, ◌↔◌, true, false, length, get_or, IsTrue, bit_and};
ghost use Rattle.bit_rows.specs.Words.{mixed_word, Mixed};

use crate::kernel::Mix;
use std::simd::prelude::*;

/// How many words one step works.
pub(crate) const LANES: usize = 8;

fn mixed_lanes(mix: Mix, into: u64x8, from: u64x8) -> u64x8
    requires into_lanes { length into ≡ 8 }
    requires from_lanes { length from ≡ 8 }
    ensures lanes { length result ≡ 8 }
    ensures each { (i : ℕ) → i < 8 → get_or result i 0 ≡ mixed_word mix (get_or into i 0) (get_or from i 0) }
{
    match mix {
        Mix::Or => into | from,
        Mix::Copy => from,
        Mix::Minus => into & !from,
    }
}

fn differ(a: u64x8, b: u64x8) -> bool
    requires a_lanes { length a ≡ 8 }
    requires b_lanes { length b ≡ 8 }
    ensures { IsTrue result ↔ ((i : ℕ) × (i < 8) × (get_or a i 0 ≢ get_or b i 0)) }
{
    a.simd_ne(b).to_bitmask() != 0
}

/// Changes eight words, from a place on, by as many others, and tells whether one is another then.
pub(crate) fn mix_block(
    mix: Mix,
    words: &mut [u64],
    into: usize,
    others: &[u64],
    from: usize,
) -> bool
    requires into_in { into + 8 ≤ length words.old }
    requires from_in { from + 8 ≤ length others.now }
    ensures { Mixed mix words.old words.new into others.now from 8 result }
{
    let old = u64x8::from_slice(&words[into..]);
    let new = mixed_lanes(mix, old, u64x8::from_slice(&others[from..]));
    new.copy_to_slice(&mut words[into..]);
    differ(new, old)
}

/// Whether two of eight words have a common bit.
pub(crate) fn block_meets(words: &[u64], a: usize, b: usize) -> bool
    requires a_in { a + 8 ≤ length words.now }
    requires b_in { b + 8 ≤ length words.now }
    ensures { IsTrue result ↔ ((i : ℕ) × (i < 8) × (bit_and (get_or words.now (a + i) 0) (get_or words.now (b + i) 0) ≢ 0)) }
{
    let common = u64x8::from_slice(&words[a..]) & u64x8::from_slice(&words[b..]);
    differ(common, u64x8::splat(0))
}
