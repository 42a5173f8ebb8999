// The pages that images and the deltas of several parts stand for.
ghost use Rattle.std.specs.Prelude.{◌≡◌, ◌<◌, ◌^◌, List, All, IfOk, length};
ghost use Rattle.xor_records.specs.Record.{Record};
ghost use Rattle.replay_core.specs.Pages.{AreImages};
ghost use Rattle.replay_core.specs.Deltas.{combined};
ghost use Rattle.replay_core.specs.Restart.{AreParts, IsRestart};

use crate::page_names::PageNames;
use crate::{Image, OutOfMemory, PageDeltas};
use rayon::prelude::*;
use std::alloc::Global;
use std::thread::Threads;

/// Toggles on a page what each part toggles on it.
fn toggle_parts(page: &mut Image, parts: &[PageDeltas])
    requires whole { length page.old.bytes ≡ 4096 }
    requires bytes { All (λ x. x < 2 ^ 8) page.old.bytes }
    ensures { page.new ≡ combined parts.now page.old }
{
    for part in parts {
        part.toggle(page);
    }
}

/// The pages that images and the records of all parts stand for, in the order of their tables and numbers:
/// those that have an image or a change, each with the stamp of its image, 0 where it has none. The parts are
/// the `deltas` of a split of the records, with the `ended` of all of them. The pages are the same for every
/// split and every order. The images have 4,096 bytes each and rise by table and number.
///
/// The pages are shared out to as many threads as there are processors, and each part is toggled on a page
/// once. `OutOfMemory`: there is none for the pages' bytes.
pub fn combine<R: Threads + Sync>(
    rt: &R,
    alloc: Global,
    images: &[Image],
    parts: &[PageDeltas],
) -> Result<Vec<Image>, OutOfMemory>
    requires { AreImages images.now }
    ensures { (records : List Record) → AreParts images.now records parts.now
        → IfOk result (λ pages. IsRestart images.now records pages.items) }
{
    let mut names = PageNames::empty(alloc);
    names.put_images(images)?;
    names.put_parts(parts)?;
    let mut pages = names.into_pages(alloc, images)?;
    par_for_each_mut(
        rt,
        pages.as_mut_slice(),
        |_: usize, page: &mut Image|
            requires { (length page.old.bytes ≡ 4096) × All (λ x. x < 2 ^ 8) page.old.bytes }
            ensures { page.new ≡ combined parts.entry.now page.old }
        { toggle_parts(page, parts) },
    );
    Ok(pages)
}
