ghost use Rattle.std.specs.Prelude.{◌≡◌, ◌≢◌, ℕ, ◌+◌, ◌*◌, ◌/◌, ◌<◌, ◌≤◌, ◌^◌, ◌↔◌, ◌||◌, length, replicate, set, false, true, IsTrue, IfOk};
ghost use lib.Lanes.{zip2};
ghost use Rattle.bit_rows.specs.Rows.{row_at, flag, and_not, mixed_bit};

use crate::kernel::{Mix, mix_others, mix_words, with_bit, words_meet};
use mir_syntax::OutOfMemory;
use std::alloc::Global;
use std::marker::Model;

/// Rows of bits. Contracts see a list of rows, each a list of bools; all have the length that `new` was given.
#[derive(Drop)]
pub struct BitRows {
    rows: u32,
    bits: u32,
    width: usize,
    words: Vec<u64>,
}

impl Model for BitRows {
    ghost use Rattle.std.specs.Prelude.{List, Bool};
    ghost use Rattle.std.specs.Coded.{coded_list, coded_bool};
    ghost use Rattle.bit_rows.specs.Words.{table, kept_flag, IsKept};

    ghost Value = { List (List Bool) };

    ghost coded = { coded_list (coded_list coded_bool) };

    ghost view = { λ m. table m.rows m.bits (kept_flag m.words.items m.width) };

    ghost invariant = { λ m. IsKept m.rows m.bits m.width m.words.items };
}

/// The place of a row's first word, and of a word in it.
fn place(row: u32, width: usize, at: usize) -> usize
    requires row { row < 2 ^ 32 }
    requires width { width ≤ 2 ^ 26 }
    requires at { at ≤ width }
    ensures { result ≡ row * width + at }
{
    row as usize * width + at
}

fn zeros(alloc: Global, count: usize) -> Result<Vec<u64>, OutOfMemory>
    ensures { IfOk result (λ words. words.items ≡ replicate count 0) }
{
    let mut words = Vec::new(alloc);
    match words.resize(count, 0u64) {
        Ok(()) => Ok(words),
        Err(_) => Err(OutOfMemory),
    }
}

impl BitRows {
    /// So many rows of so many bits, all false.
    ///
    /// # Errors
    ///
    /// `OutOfMemory`.
    pub fn new(alloc: Global, rows: u32, bits: u32) -> Result<BitRows, OutOfMemory>
        ensures { IfOk result (λ made. made ≡ replicate rows (replicate bits false)) }
    {
        let width = (bits as usize + 63) / 64;
        let words = zeros(alloc, place(rows, width, 0))?;
        Ok(BitRows {
            rows,
            bits,
            width,
            words,
        })
    }

    /// The bit of a row.
    pub fn get(&self, row: u32, bit: u32) -> bool
        requires row_in { row < length self.now }
        requires bit_in { bit < length (row_at self.now row) }
        ensures { result ≡ flag self.now row bit }
    {
        let word = self.words[place(row, self.width, bit as usize / 64)];
        (word >> (bit % 64)) & 1 == 1
    }

    /// The bit of a row; false past its end.
    pub fn has(&self, row: u32, bit: u32) -> bool
        requires { row < length self.now }
        ensures { result ≡ flag self.now row bit }
    {
        bit < self.bits && self.get(row, bit)
    }

    /// Sets a bit of a row, or clears it.
    pub fn set(&mut self, row: u32, bit: u32, on: bool)
        requires row_in { row < length self.old }
        requires bit_in { bit < length (row_at self.old row) }
        ensures { self.new ≡ set self.old row (set (row_at self.old row) bit on) }
    {
        let at = place(row, self.width, bit as usize / 64);
        self.words[at] = with_bit(self.words[at], bit % 64, on);
    }

    /// Sets a bit of a row, or clears it, where the row has that bit; a bit past its end is left out.
    pub fn write(&mut self, row: u32, bit: u32, on: bool)
        requires { row < length self.old }
        ensures { self.new ≡ set self.old row (set (row_at self.old row) bit on) }
    {
        if bit < self.bits {
            self.set(row, bit, on);
        }
    }

    /// Sets in a row each bit that is set in another. True exactly where the row changed.
    pub fn or_row(&mut self, into: u32, from: u32) -> bool
        requires into_in { into < length self.old }
        requires from_in { from < length self.old }
        ensures row { self.new ≡ set self.old into (zip2 (λ a b. a || b) (row_at self.old into) (row_at self.old from)) }
        ensures changed { IsTrue result ↔ (self.new ≢ self.old) }
    {
        into != from && self.mix(Mix::Or, into, from)
    }

    /// Makes a row equal to another. True exactly where the row changed.
    pub fn copy_row(&mut self, into: u32, from: u32) -> bool
        requires into_in { into < length self.old }
        requires from_in { from < length self.old }
        requires differ { into ≢ from }
        ensures row { self.new ≡ set self.old into (row_at self.old from) }
        ensures changed { IsTrue result ↔ (self.new ≢ self.old) }
    {
        self.mix(Mix::Copy, into, from)
    }

    /// Clears in a row each bit that is set in another. True exactly where the row changed.
    pub fn minus_row(&mut self, into: u32, from: u32) -> bool
        requires into_in { into < length self.old }
        requires from_in { from < length self.old }
        requires differ { into ≢ from }
        ensures row { self.new ≡ set self.old into (zip2 and_not (row_at self.old into) (row_at self.old from)) }
        ensures changed { IsTrue result ↔ (self.new ≢ self.old) }
    {
        self.mix(Mix::Minus, into, from)
    }

    /// Whether some bit is set in both rows.
    pub fn meets(&self, a: u32, b: u32) -> bool
        requires a_in { a < length self.now }
        requires b_in { b < length self.now }
        ensures { IsTrue result ↔ ((k : ℕ) × IsTrue (flag self.now a k) × IsTrue (flag self.now b k)) }
    {
        let first = place(a, self.width, 0);
        let second = place(b, self.width, 0);
        words_meet(self.words.as_slice(), first, second, self.width)
    }

    /// Sets in a row each bit that is set in a row of other rows. True exactly where the row changed.
    pub fn or_other(&mut self, into: u32, others: &BitRows, from: u32) -> bool
        requires into_in { into < length self.old }
        requires from_in { from < length others.now }
        requires same_bits { length (row_at self.old into) ≡ length (row_at others.now from) }
        ensures row { self.new ≡ set self.old into (zip2 (λ a b. a || b) (row_at self.old into) (row_at others.now from)) }
        ensures changed { IsTrue result ↔ (self.new ≢ self.old) }
    {
        self.mix_other(Mix::Or, into, others, from)
    }

    /// Makes a row equal to a row of other rows. True exactly where the row changed.
    pub fn copy_other(&mut self, into: u32, others: &BitRows, from: u32) -> bool
        requires into_in { into < length self.old }
        requires from_in { from < length others.now }
        requires same_bits { length (row_at self.old into) ≡ length (row_at others.now from) }
        ensures row { self.new ≡ set self.old into (row_at others.now from) }
        ensures changed { IsTrue result ↔ (self.new ≢ self.old) }
    {
        self.mix_other(Mix::Copy, into, others, from)
    }

    /// Clears in a row each bit that is set in a row of other rows. True exactly where the row changed.
    pub fn minus_other(&mut self, into: u32, others: &BitRows, from: u32) -> bool
        requires into_in { into < length self.old }
        requires from_in { from < length others.now }
        requires same_bits { length (row_at self.old into) ≡ length (row_at others.now from) }
        ensures row { self.new ≡ set self.old into (zip2 and_not (row_at self.old into) (row_at others.now from)) }
        ensures changed { IsTrue result ↔ (self.new ≢ self.old) }
    {
        self.mix_other(Mix::Minus, into, others, from)
    }

    fn mix(&mut self, mix: Mix, into: u32, from: u32) -> bool
        requires into_in { into < length self.old }
        requires from_in { from < length self.old }
        requires differ { into ≢ from }
        ensures row { self.new ≡ set self.old into (zip2 (mixed_bit mix) (row_at self.old into) (row_at self.old from)) }
        ensures same_bits { length (row_at self.old into) ≡ length (row_at self.old from) }
        ensures changed { IsTrue result ↔ (self.new ≢ self.old) }
    {
        let first = place(into, self.width, 0);
        let second = place(from, self.width, 0);
        mix_words(mix, self.words.as_mut_slice(), first, second, self.width)
    }

    fn mix_other(&mut self, mix: Mix, into: u32, others: &BitRows, from: u32) -> bool
        requires into_in { into < length self.old }
        requires from_in { from < length others.now }
        requires same_bits { length (row_at self.old into) ≡ length (row_at others.now from) }
        ensures row { self.new ≡ set self.old into (zip2 (mixed_bit mix) (row_at self.old into) (row_at others.now from)) }
        ensures changed { IsTrue result ↔ (self.new ≢ self.old) }
    {
        let first = place(into, self.width, 0);
        let second = place(from, others.width, 0);
        mix_others(
            mix,
            self.words.as_mut_slice(),
            first,
            others.words.as_slice(),
            second,
            self.width,
        )
    }
}
