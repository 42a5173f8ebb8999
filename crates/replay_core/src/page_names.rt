// Names of pages.
use crate::images::{PageKey, key_of, place_of};
use crate::page_bytes::{copy, zeros};
use crate::{Image, OutOfMemory, PageDeltas};
use std::alloc::Global;
use std::collections::BTreeSet;
use std::marker::Model;

/// Pages by their tables and numbers, in this order.
#[derive(Drop)]
pub(crate) struct PageNames {
    keys: BTreeSet<PageKey>,
}

impl Model for PageNames {
    ghost use Rattle.std.specs.Prelude.{ℕ, List};

    ghost Value = { List (ℕ × ℕ) };

    ghost view = { λ n. n.keys.keys };
}

impl PageNames {
    ghost use Rattle.std.specs.Prelude.{◌≡◌, ◌||◌, [], IfOk, OnOk, map};
    ghost use Rattle.std.specs.Prelude.{◌<◌, ◌^◌, All};
    ghost use Rattle.std.specs.List.{list_any};
    ghost use Rattle.std.specs.List.Sorted.{IsStrictlySortedBy};
    ghost use Rattle.xor_records.specs.Replay.{PageName, shows};
    ghost use Rattle.replay_core.specs.Pages.{IsRising, has_key, is_named, page_at, page_cmp};
    ghost use Rattle.replay_core.specs.Deltas.{has_delta};

    /// Of no pages.
    pub(crate) fn empty(alloc: Global) -> PageNames
        ensures { result ≡ [] }
    {
        PageNames {
            keys: BTreeSet::new(alloc),
        }
    }

    /// Adds a page, if it isn't there.
    pub(crate) fn put(&mut self, key: PageKey) -> Result<(), OutOfMemory>
        ensures { OnOk result ((name : PageName)
            → has_key self.new name ≡ (is_named key name || has_key self.old name)) }
    {
        self.keys.insert(key)?;
        Ok(())
    }

    /// Adds the pages of images.
    pub(crate) fn put_images(&mut self, images: &[Image]) -> Result<(), OutOfMemory>
        ensures { OnOk result ((name : PageName)
            → has_key self.new name ≡ (list_any (shows name) images.now || has_key self.old name)) }
    {
        for image in images {
            self.put(key_of(image))?;
        }
        Ok(())
    }

    /// Adds the pages of the deltas of all parts.
    pub(crate) fn put_parts(&mut self, parts: &[PageDeltas]) -> Result<(), OutOfMemory>
        ensures { OnOk result ((name : PageName)
            → has_key self.new name
            ≡ (list_any (λ part. has_delta part name) parts.now || has_key self.old name)) }
    {
        for part in parts {
            part.add_names(self)?;
        }
        Ok(())
    }

    /// These pages as the images have them, and zeros with the stamp 0 where there is none.
    pub(crate) fn into_pages(
        self,
        alloc: Global,
        images: &[Image],
    ) -> Result<Vec<Image>, OutOfMemory>
        requires { IsRising images.now }
        ensures pages { IfOk result (λ pages. pages.items ≡ map (page_at images.now) self) }
        ensures bytes { IfOk result (λ pages. All (λ page. All (λ x. x < 2 ^ 8) page.bytes) pages.items) }
        ensures rising { IsStrictlySortedBy page_cmp self }
    {
        let PageNames { keys } = self;
        let mut pages = Vec::new(alloc);
        for key in keys {
            pages.push(page_at(alloc, images, key)?)?;
        }
        Ok(pages)
    }
}

ghost use Rattle.std.specs.Prelude.{◌≡◌, ◌<◌, ◌^◌, All, IfOk};
ghost use Rattle.replay_core.specs.Pages.{IsRising, page_at};

/// A copy of a page's image, or zeros with the stamp 0 where it has none.
fn page_at(alloc: Global, images: &[Image], key: PageKey) -> Result<Image, OutOfMemory>
    requires { IsRising images.now }
    ensures page { IfOk result (λ page. page ≡ page_at images.now key) }
    ensures bytes { IfOk result (λ page. All (λ x. x < 2 ^ 8) page.bytes) }
{
    let (table, page) = key;
    let Some(place) = place_of(images, key) else {
        return Ok(Image::new(table, page, 0, zeros(alloc)?));
    };
    let image = &images[place];
    let bytes = copy(alloc, image.bytes())?;
    Ok(Image::new(table, page, image.stamp(), bytes))
}
