// Numbers that are counted up and replaced, each in few bytes where it and its neighbours are small.
ghost use Rattle.std.specs.Prelude.{◌≡◌, replicate, slice_index_or, slice_set, IfOk, OnOk};

use crate::page::Page;
use aq_base::Memory;
use std::alloc::Global;
use std::marker::Model;

/// How many numbers a page has. The last may have fewer.
const PAGE: usize = 4096;

/// A list of numbers in pages. Each takes one byte, until one is put into its page that needs more.
#[derive(Drop)]
pub(crate) struct Numbers {
    pages: Vec<Page>,
}

impl Model for Numbers {
    ghost use Rattle.std.specs.Prelude.{ℕ, List};
    ghost use Rattle.std.specs.List.{concat};
    ghost use Rattle.level_balance.specs.Code.Pages.{ArePages};

    ghost Value = { List ℕ };

    ghost view = { λ n. concat n.pages.items };

    ghost invariant = { λ n. ArePages 4096 n.pages.items };
}

/// So many pages of so many zeros.
fn full_pages(alloc: Global, size: usize, count: usize) -> Result<Vec<Page>, Memory>
    ensures { IfOk result (λ pages. pages.items ≡ replicate count (replicate size 0)) }
{
    let mut pages = Vec::new(alloc);
    let mut left = count;
    while left > 0 {
        left -= 1;
        pages.push(Page::zeros(alloc, size)?)?;
    }
    Ok(pages)
}

impl Numbers {
    /// So many zeros.
    pub(crate) fn zeros(alloc: Global, count: usize) -> Result<Numbers, Memory>
        ensures { IfOk result (λ numbers. numbers ≡ replicate count 0) }
    {
        let mut pages = full_pages(alloc, PAGE, count / PAGE)?;
        pages.push(Page::zeros(alloc, count % PAGE)?)?;
        Ok(Numbers { pages })
    }

    /// The number at a place, and 0 where none is.
    pub(crate) fn get(&self, place: usize) -> usize
        ensures { result ≡ slice_index_or self.now place 0 }
    {
        match self.pages.get(place / PAGE) {
            Some(page) => page.get(place % PAGE),
            None => 0,
        }
    }

    /// Puts a number at a place, if it is there.
    pub(crate) fn set(&mut self, place: usize, number: usize) -> Result<(), Memory>
        ensures { OnOk result (self.new ≡ slice_set self.old place number) }
    {
        let at = place / PAGE;
        if at < self.pages.len() {
            self.pages[at].set(place % PAGE, number)?;
        }
        Ok(())
    }
}
