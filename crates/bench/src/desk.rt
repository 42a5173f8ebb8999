// Pages that are changed.
use crate::pages::PAGES;
use base_types::OutOfMemory;
use slot_pages::{Page, Pool};
use std::alloc::Global;
use std::marker::Model;

/// A page, and the pool of its block.
#[derive(Drop)]
pub(crate) struct Desk {
    pool: Pool,
    page: Page,
}

impl Model for Desk {
    ghost use Rattle.slot_pages.specs.State.{PageState, IsPage};

    ghost Value = { PageState };

    ghost view = { λ d. d.page };

    ghost invariant = { λ d. IsPage d.pool d.page };
}

impl Desk {
    /// Flips the bits that a row of two numbers sets in an empty slot.
    fn change(&mut self, slot: u16) {
        if slot < 240 && self.page.stamp() < 1_000_000_000 {
            self.page.toggle(&mut self.pool, slot * 17, &[1, 1, 0, 0, 0, 0, 0, 0, 0, 10]);
        }
    }
}

/// 4,096 empty pages.
pub(crate) fn desks(alloc: Global) -> Result<Vec<Desk>, OutOfMemory> {
    let mut desks = Vec::new(alloc);
    for _ in 0..PAGES {
        let mut pool = Pool::new(alloc, 1)?;
        if let Ok(page) = Page::fresh(&mut pool, 0, 0) {
            desks.push(Desk { pool, page })?;
        }
    }
    Ok(desks)
}

/// Changes a slot of each page.
pub(crate) fn toggle_pages(desks: &mut [Desk]) {
    for k in 0..desks.len() {
        desks[k].change((k % 240) as u16);
    }
}
