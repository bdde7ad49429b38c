// A page of numbers, each in as few bytes as the greatest needs that was put there.
ghost use Rattle.std.specs.Prelude.{◌≡◌, ◌≤◌, length, replicate, slice_index_or, slice_set, IfOk, OnOk};
ghost use Rattle.level_balance.specs.Code.Pages.{kept_numbers, most_kept};

use aq_base::Memory;
use std::alloc::Global;
use std::marker::Model;

/// Numbers of one size.
#[derive(Drop)]
enum Kept {
    /// One byte each.
    Bytes(Vec<u8>),
    /// Two bytes each.
    Halves(Vec<u16>),
    /// Four bytes each.
    Words(Vec<u32>),
    /// Eight bytes each.
    Wide(Vec<usize>),
}

/// A list of numbers. Each takes one byte, until one is put in that needs more: from then on each takes two, four or
/// eight.
#[derive(Drop)]
pub(crate) struct Page {
    kept: Kept,
}

impl Model for Page {
    ghost use Rattle.std.specs.Prelude.{ℕ, List};
    ghost use Rattle.level_balance.specs.Code.Pages.{kept_numbers};

    ghost Value = { List ℕ };

    ghost view = { λ page. kept_numbers page.kept };
}

/// The same numbers of two bytes each.
fn halves_of(alloc: Global, bytes: &[u8]) -> Result<Vec<u16>, Memory>
    ensures { IfOk result (λ halves. halves.items ≡ bytes.now) }
{
    let mut halves = Vec::with_capacity(alloc, bytes.len())?;
    for byte in bytes {
        halves.push(*byte as u16)?;
    }
    Ok(halves)
}

/// The same numbers of four bytes each.
fn words_of(alloc: Global, halves: &[u16]) -> Result<Vec<u32>, Memory>
    ensures { IfOk result (λ words. words.items ≡ halves.now) }
{
    let mut words = Vec::with_capacity(alloc, halves.len())?;
    for half in halves {
        words.push(*half as u32)?;
    }
    Ok(words)
}

/// The same numbers of eight bytes each.
fn wide_of(alloc: Global, words: &[u32]) -> Result<Vec<usize>, Memory>
    ensures { IfOk result (λ wide. wide.items ≡ words.now) }
{
    let mut wide = Vec::with_capacity(alloc, words.len())?;
    for word in words {
        wide.push(*word as usize)?;
    }
    Ok(wide)
}

/// The same numbers of four bytes each, or of eight where this one needs them.
fn words_for(alloc: Global, halves: &[u16], number: usize) -> Result<Kept, Memory>
    ensures same { IfOk result (λ kept. kept_numbers kept ≡ halves.now) }
    ensures fits { IfOk result (λ kept. number ≤ most_kept kept) }
{
    let words = words_of(alloc, halves)?;
    if number <= u32::MAX as usize {
        return Ok(Kept::Words(words));
    }
    Ok(Kept::Wide(wide_of(alloc, &words)?))
}

/// The same numbers of two bytes each, or of more where this one needs them.
fn halves_for(alloc: Global, bytes: &[u8], number: usize) -> Result<Kept, Memory>
    ensures same { IfOk result (λ kept. kept_numbers kept ≡ bytes.now) }
    ensures fits { IfOk result (λ kept. number ≤ most_kept kept) }
{
    let halves = halves_of(alloc, bytes)?;
    if number <= u16::MAX as usize {
        return Ok(Kept::Halves(halves));
    }
    words_for(alloc, &halves, number)
}

/// Puts a number of one byte at a place, if it is there.
fn put_byte(numbers: &mut Vec<u8>, place: usize, number: u8)
    ensures { numbers.new.items ≡ slice_set numbers.old.items place number }
{
    if place < numbers.len() {
        numbers[place] = number;
    }
}

/// Puts a number of two bytes at a place, if it is there.
fn put_half(numbers: &mut Vec<u16>, place: usize, number: u16)
    ensures { numbers.new.items ≡ slice_set numbers.old.items place number }
{
    if place < numbers.len() {
        numbers[place] = number;
    }
}

/// Puts a number of four bytes at a place, if it is there.
fn put_word(numbers: &mut Vec<u32>, place: usize, number: u32)
    ensures { numbers.new.items ≡ slice_set numbers.old.items place number }
{
    if place < numbers.len() {
        numbers[place] = number;
    }
}

/// Puts a number of eight bytes at a place, if it is there.
fn put_wide(numbers: &mut Vec<usize>, place: usize, number: usize)
    ensures { numbers.new.items ≡ slice_set numbers.old.items place number }
{
    if place < numbers.len() {
        numbers[place] = number;
    }
}

/// Keeps the same numbers so that this one can be put in too.
fn fit(kept: &mut Kept, number: usize) -> Result<(), Memory>
    ensures same { kept_numbers kept.new ≡ kept_numbers kept.old }
    ensures fits { OnOk result (number ≤ most_kept kept.new) }
{
    match kept {
        Kept::Bytes(bytes) => {
            if number > u8::MAX as usize {
                *kept = halves_for(*bytes.allocator(), bytes, number)?;
            }
        }
        Kept::Halves(halves) => {
            if number > u16::MAX as usize {
                *kept = words_for(*halves.allocator(), halves, number)?;
            }
        }
        Kept::Words(words) => {
            if number > u32::MAX as usize {
                *kept = Kept::Wide(wide_of(*words.allocator(), words)?);
            }
        }
        Kept::Wide(_) => {}
    }
    Ok(())
}

/// Puts a number at a place, if it is there.
fn put(kept: &mut Kept, place: usize, number: usize)
    requires { number ≤ most_kept kept.old }
    ensures { kept_numbers kept.new ≡ slice_set (kept_numbers kept.old) place number }
{
    match kept {
        Kept::Bytes(numbers) => put_byte(numbers, place, number as u8),
        Kept::Halves(numbers) => put_half(numbers, place, number as u16),
        Kept::Words(numbers) => put_word(numbers, place, number as u32),
        Kept::Wide(numbers) => put_wide(numbers, place, number),
    }
}

impl Page {
    /// So many zeros.
    pub(crate) fn zeros(alloc: Global, count: usize) -> Result<Page, Memory>
        ensures { IfOk result (λ page. page ≡ replicate count 0) }
    {
        let zeros = vec![in alloc; 0; count]?;
        Ok(Page {
            kept: Kept::Bytes(zeros),
        })
    }

    /// The number at a place, and 0 where none is.
    pub(crate) fn get(&self, place: usize) -> usize
        ensures { result ≡ slice_index_or self.now place 0 }
    {
        match &self.kept {
            Kept::Bytes(numbers) => numbers.get(place).copied().unwrap_or(0) as usize,
            Kept::Halves(numbers) => numbers.get(place).copied().unwrap_or(0) as usize,
            Kept::Words(numbers) => numbers.get(place).copied().unwrap_or(0) as usize,
            Kept::Wide(numbers) => numbers.get(place).copied().unwrap_or(0),
        }
    }

    /// Puts a number at a place, if it is there.
    pub(crate) fn set(&mut self, place: usize, number: usize) -> Result<(), Memory>
        ensures is { OnOk result (self.new ≡ slice_set self.old place number) }
        ensures size { length self.new ≡ length self.old }
    {
        fit(&mut self.kept, number)?;
        put(&mut self.kept, place, number);
        Ok(())
    }
}
