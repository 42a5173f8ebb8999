// What records toggle on pages.
use crate::images::{PageKey, key_of, stamp_of};
use crate::page_bytes::{toggle, toggle_all, zeros};
use crate::page_names::PageNames;
use crate::{EndedTxns, Image, OutOfMemory};
use std::alloc::Global;
use std::collections::BTreeMap;
use std::marker::Model;
use xor_records::{Kind, Rec, RecView, is_owed};

/// What records toggle on pages: each page that has a change among them, with the XOR to apply to its bytes,
/// in the order of tables and numbers. A page is found in logarithmic time.
#[derive(Drop)]
pub struct PageDeltas {
    pages: BTreeMap<PageKey, Vec<u8>>,
}

impl Model for PageDeltas {
    ghost use Rattle.std.specs.Prelude.{List, map};
    ghost use Rattle.replay_core.specs.Deltas.{PageDelta};
    ghost use Rattle.replay_core.specs.Views.{delta_at, AreWhole};

    ghost Value = { List PageDelta };

    ghost view = { λ d. map delta_at d.pages.entries };

    ghost invariant = { λ d. AreWhole d.pages.entries };
}

impl PageDeltas {
    ghost use Rattle.std.specs.Prelude.{◌≡◌, ◌||◌, ◌+◌, ◌≤◌, ◌++◌, ◌∷◌, [], true, List, OnOk, OnErr, length};
    ghost use Rattle.std.specs.Prelude.{if◌then◌else◌};
    ghost use Rattle.std.specs.Prelude.{◌<◌, ◌^◌, All};
    ghost use Rattle.fields.specs.Toggle.{byte_at, byte_from, toggled};
    ghost use Rattle.xor_records.specs.Record.{Record};
    ghost use Rattle.xor_records.specs.Replay.{PageName};
    ghost use Rattle.replay_core.specs.Pages.{IsRising, has_key, key_of, name_of, is_named};
    ghost use Rattle.replay_core.specs.Ended.{is_in};
    ghost use Rattle.replay_core.specs.Deltas.{has_delta, xor_of, AreDeltas};

    /// Those of no records.
    pub fn empty(alloc: Global) -> PageDeltas
        ensures { result ≡ [] }
    {
        PageDeltas {
            pages: BTreeMap::new(alloc),
        }
    }

    /// Gives a page zeros where it has no delta. `OutOfMemory`: the deltas stay as they were.
    pub(crate) fn room(&mut self, alloc: Global, key: PageKey) -> Result<(), OutOfMemory>
        ensures there { OnOk result ((name : PageName)
            → has_delta self.new name ≡ (is_named key name || has_delta self.old name)) }
        ensures xor { (name : PageName) → xor_of self.new name ≡ xor_of self.old name }
        ensures err { OnErr result (self.new ≡ self.old) }
    {
        if self.pages.contains_key(&key) {
            return Ok(());
        }
        let xor = zeros(alloc)?;
        self.pages.insert(key, xor)?;
        Ok(())
    }

    /// Toggles bits of a page that has a delta.
    fn flip(&mut self, key: PageKey, offset: u16, xor: &[u8])
        requires there { has_delta self.old (name_of key) ≡ true }
        requires inside { offset + length xor.now ≤ 4096 }
        ensures there { (name : PageName) → has_delta self.new name ≡ has_delta self.old name }
        ensures xor { (name : PageName) → xor_of self.new name
            ≡ (if is_named key name then toggled (byte_from offset) (xor_of self.old name) xor.now
            else xor_of self.old name) }
    {
        let Some(page) = self.pages.get_mut(&key) else {
            return;
        };
        toggle(page, offset as usize, xor);
    }

    /// Adds the pages that have a delta to the names of pages.
    pub(crate) fn add_names(&self, names: &mut PageNames) -> Result<(), OutOfMemory>
        ensures { OnOk result ((name : PageName)
            → has_key names.new name ≡ (has_delta self.now name || has_key names.old name)) }
    {
        for key in self.pages.keys() {
            names.put(*key)?;
        }
        Ok(())
    }

    /// Toggles on a page what these toggle on it.
    pub(crate) fn toggle(&self, page: &mut Image)
        requires { length page.old.bytes ≡ 4096 }
        ensures toggled { page.new ≡ record page.old {
          bytes
              = toggled byte_at page.old.bytes (xor_of self.now (name_of (key_of page.old)));
        } }
        ensures bytes { All (λ x. x < 2 ^ 8) (xor_of self.now (name_of (key_of page.old))) }
    {
        let Some(xor) = self.pages.get(&key_of(page)) else {
            return;
        };
        toggle_all(page, xor);
    }

    /// The deltas of one record more, which comes behind those before. The images rise by table and number. A
    /// change is toggled on its page if its transaction has ended or its stamp is at most that of the page's
    /// image, and not both. `OutOfMemory`: the deltas stay as they were.
    pub fn add(
        &mut self,
        alloc: Global,
        images: &[Image],
        ended: &EndedTxns,
        rec: &RecView,
    ) -> Result<(), OutOfMemory>
        requires { IsRising images.now }
        ensures ok { OnOk result ((records : List Record)
            → AreDeltas images.now (is_in ended.now) records self.old
            → AreDeltas images.now (is_in ended.now) (records ++ rec.now ∷ []) self.new) }
        ensures err { OnErr result (self.new ≡ self.old) }
    {
        match rec.kind() {
            Kind::Diff { head, xor } => {
                let key = (head.table, head.page);
                self.room(alloc, key)?;
                let stamp = stamp_of(images, key);
                if is_owed(&head, ended.has(head.txn), stamp) {
                    self.flip(key, head.offset, xor);
                }
                Ok(())
            }
            Kind::Commit { .. } => Ok(()),
            Kind::End { .. } => Ok(()),
        }
    }
}

ghost use Rattle.std.specs.Prelude.{◌≡◌, IfOk};
ghost use Rattle.replay_core.specs.Pages.{IsRising};
ghost use Rattle.replay_core.specs.Ended.{is_in};
ghost use Rattle.replay_core.specs.Deltas.{AreDeltas};

/// What these records toggle on each page. The images rise by table and number, and `ended` has the
/// transactions that have ended by the records of all parts. `OutOfMemory`: there is none for the pages'
/// bytes.
pub fn deltas(
    alloc: Global,
    images: &[Image],
    ended: &EndedTxns,
    records: &[Rec],
) -> Result<PageDeltas, OutOfMemory>
    requires { IsRising images.now }
    ensures { IfOk result (AreDeltas images.now (is_in ended.now) records.now) }
{
    let mut deltas = PageDeltas::empty(alloc);
    for rec in records {
        deltas.add(alloc, images, ended, &rec.view())?;
    }
    Ok(deltas)
}
