// Replay of records over images of pages, from one lane and from several.
ghost use Rattle.std.specs.Prelude.{◌≡◌, IfOk, length};
ghost use Rattle.replay_core.specs.Pages.{AreImages};

use replay_core::{EndedTxns, Image, combine, deltas, ended};
use std::alloc::Global;
use std::test::Fail;
use std::thread::Threads;
use xor_records::{Rec, read_rec};

/// A record: that a transaction committed or ended, or its change of one byte of a page of table 0.
#[derive(Clone, Copy)]
enum Entry {
    Commit(u8),
    End(u8),
    Change {
        txn: u8,
        page: u16,
        stamp: u8,
        offset: u8,
        xor: u8,
    },
}

/// The record, as it is read.
fn kept(alloc: Global, entry: Entry) -> Result<Rec, Fail> {
    let mut bytes = [0u8; 28];
    match entry {
        Entry::Commit(txn) => {
            bytes[0] = 2;
            bytes[1] = txn;
        }
        Entry::End(txn) => {
            bytes[0] = 3;
            bytes[1] = txn;
        }
        Entry::Change {
            txn,
            page,
            stamp,
            offset,
            xor,
        } => {
            bytes[0] = 1;
            bytes[1] = txn;
            bytes[11] = page.to_le_bytes()[0];
            bytes[12] = page.to_le_bytes()[1];
            bytes[15] = stamp;
            bytes[23] = offset;
            bytes[25] = 1;
            bytes[27] = xor;
        }
    }
    match read_rec(&bytes) {
        Ok((view, _)) => Ok(view.keep(alloc)?),
        Err(_) => Err(Fail::from("no record")),
    }
}

/// The entries of a lane.
fn lane_of(alloc: Global, entries: &[Entry]) -> Result<Vec<Rec>, Fail> {
    let mut lane = Vec::new(alloc);
    for entry in entries {
        lane.push(kept(alloc, *entry)?)?;
    }
    Ok(lane)
}

/// So many zeros, of which the first may be another byte.
fn bytes_of(alloc: Global, len: usize, first: u8) -> Result<Vec<u8>, Fail>
    ensures { IfOk result (λ bytes. length bytes.items ≡ len) }
{
    let mut bytes = vec![in alloc; 0u8; len]?;
    if !bytes.is_empty() {
        bytes[0] = first;
    }
    Ok(bytes)
}

/// The image of a page of table 0 in which the first byte alone may be set.
fn one_image(alloc: Global, page: u32, stamp: u64, first: u8) -> Result<Vec<Image>, Fail>
    ensures { IfOk result (λ images. AreImages images.items) }
{
    let bytes = bytes_of(alloc, 4096, first)?;
    let mut images = Vec::new(alloc);
    images.push(Image::new(0, page, stamp, bytes))?;
    Ok(images)
}

/// The pages that the images and the records of all lanes stand for.
fn replayed<R: Threads + Sync>(
    rt: &R,
    alloc: Global,
    images: &[Image],
    lanes: &[Vec<Rec>],
) -> Result<Vec<Image>, Fail>
    requires { AreImages images.now }
{
    let mut txns = EndedTxns::empty(alloc);
    for lane in lanes {
        for rec in lane {
            txns.add(&rec.view())?;
        }
    }
    let mut parts = Vec::new(alloc);
    for lane in lanes {
        parts.push(deltas(alloc, images, &txns, lane)?)?;
    }
    Ok(combine(rt, alloc, images, &parts)?)
}

/// The first byte of page 1, whose image has it so with this stamp, once the entries are replayed.
fn first_byte<R: Threads + Sync>(
    rt: &R,
    alloc: Global,
    stamp: u64,
    first: u8,
    entries: &[Entry],
) -> Result<u8, Fail> {
    let images = one_image(alloc, 1, stamp, first)?;
    let mut lanes = Vec::new(alloc);
    lanes.push(lane_of(alloc, entries)?)?;
    let pages = replayed(rt, alloc, &images, &lanes)?;
    if pages.len() != 1 || pages[0].stamp() != stamp || pages[0].bytes().len() != 4096 {
        return Err(Fail::from("another page"));
    }
    Ok(pages[0].bytes()[0])
}

/// A change of the first byte of page 1.
fn change(txn: u8, stamp: u8, xor: u8) -> Entry {
    Entry::Change {
        txn,
        page: 1,
        stamp,
        offset: 0,
        xor,
    }
}

/// The image's stamp and byte, the entries, and the byte after them.
#[test]
fn owed_changes_alone_are_toggled(rt: HostRuntime) -> Result<(), Fail> {
    let alloc = rt.alloc();
    let (seven, eight, nine) = (change(7, 4, 1), change(8, 5, 2), change(9, 7, 8));
    let later = change(8, 6, 4);
    let rows: [(u64, u8, &[Entry], u8); 6] = [
        (5, 0, &[seven, eight, later, nine, Entry::Commit(8)], 5),
        (0, 10, &[change(1, 1, 30), Entry::Commit(1)], 20),
        (0, 10, &[change(1, 1, 30)], 10),
        (0, 10, &[], 10),
        (
            1,
            20,
            &[change(3, 1, 30), change(3, 2, 30), Entry::End(3)],
            10,
        ),
        (1, 20, &[change(3, 1, 30), change(3, 2, 30)], 10),
    ];
    for (stamp, first, entries, want) in rows {
        assert_eq!(rt; first_byte(&rt, alloc, stamp, first, entries)?, want);
    }
    Ok(())
}

/// The entries of transactions 1 to 8: each changes two bytes of the page 0 or 1, and 1, 4, 5, 7 and 8 end.
fn of_eight(alloc: Global) -> Result<Vec<Entry>, Fail> {
    let mut entries = Vec::new(alloc);
    for txn in 1..9u8 {
        let page = (txn % 2) as u16;
        entries.push(Entry::Change {
            txn,
            page,
            stamp: txn * 2 - 1,
            offset: txn,
            xor: txn * 16 + 1,
        })?;
        entries.push(Entry::Change {
            txn,
            page,
            stamp: txn * 2,
            offset: txn + 10,
            xor: txn,
        })?;
        if txn == 8 {
            entries.push(Entry::End(txn))?;
        } else if txn == 1 || txn == 4 || txn == 5 || txn == 7 {
            entries.push(Entry::Commit(txn))?;
        }
    }
    Ok(entries)
}

/// How the entries are split over three lanes: by their transaction, by their place, or all backwards in one.
#[derive(Clone, Copy)]
enum Split {
    ByTxn,
    ByPlace,
    Backwards,
}

fn lane_number(split: Split, place: usize, entry: Entry) -> usize {
    let txn = match entry {
        Entry::Commit(txn) => txn,
        Entry::End(txn) => txn,
        Entry::Change { txn, .. } => txn,
    };
    match split {
        Split::ByTxn => txn as usize % 3,
        Split::ByPlace => place % 3,
        Split::Backwards => 0,
    }
}

fn lanes_of(alloc: Global, entries: &[Entry], split: Split) -> Result<Vec<Vec<Rec>>, Fail> {
    let mut lanes = Vec::new(alloc);
    for number in 0..3usize {
        let mut lane = Vec::new(alloc);
        for place in 0..entries.len() {
            if lane_number(split, place, entries[place]) == number {
                lane.push(kept(alloc, entries[place])?)?;
            }
        }
        if matches!(split, Split::Backwards) {
            lane.reverse();
        }
        lanes.push(lane)?;
    }
    Ok(lanes)
}

/// The first 19 bytes of the pages 0 and 1.
const PAGES: [[u8; 19]; 2] = [
    [0, 0, 33, 0, 65, 0, 0, 0, 129, 0, 0, 0, 2, 0, 4, 0, 0, 0, 8],
    [0, 17, 0, 0, 0, 81, 0, 113, 0, 0, 0, 1, 0, 0, 0, 5, 0, 7, 0],
];

/// Whether the pages are these two, with these stamps.
fn are_those(pages: &[Image]) -> bool {
    if pages.len() != 2 {
        return false;
    }
    (pages[0].page(), pages[0].stamp()) == (0, 6)
        && (pages[1].page(), pages[1].stamp()) == (1, 0)
        && pages[0].bytes().starts_with(&PAGES[0])
        && pages[1].bytes().starts_with(&PAGES[1])
}

#[test]
fn the_pages_are_the_same_for_every_split(rt: HostRuntime) -> Result<(), Fail> {
    let alloc = rt.alloc();
    let entries = of_eight(alloc)?;
    let images = one_image(alloc, 0, 6, 0)?;
    for split in [Split::ByTxn, Split::ByPlace, Split::Backwards] {
        let lanes = lanes_of(alloc, &entries, split)?;
        let pages = replayed(&rt, alloc, &images, &lanes)?;
        assert!(rt; are_those(&pages));
    }
    Ok(())
}

/// How many of 600 pages, of which page 5 has an image, come out with the byte that two lanes toggle on them.
fn replayed_many<R: Threads + Sync>(rt: &R, alloc: Global) -> Result<usize, Fail> {
    let mut lane = Vec::new(alloc);
    let mut other = Vec::new(alloc);
    for page in 0..600u16 {
        let (txn, stamp, offset) = (1, 1, 0);
        lane.push(kept(
            alloc,
            Entry::Change {
                txn,
                page,
                stamp,
                offset,
                xor: 1,
            },
        )?)?;
        other.push(kept(
            alloc,
            Entry::Change {
                txn,
                page,
                stamp,
                offset,
                xor: 2,
            },
        )?)?;
    }
    other.push(kept(alloc, Entry::Commit(1))?)?;
    let mut lanes = Vec::new(alloc);
    lanes.push(lane)?;
    lanes.push(other)?;
    let images = one_image(alloc, 5, 0, 0)?;
    let mut right: usize = 0;
    for page in replayed(rt, alloc, &images, &lanes)? {
        if page.bytes().starts_with(&[3, 0]) && right < 600 {
            right += 1;
        }
    }
    Ok(right)
}

#[test]
fn many_pages_are_replayed_with_ample_memory(rt: HostRuntime) -> Result<(), Fail> {
    assert_eq!(rt; replayed_many(&rt, rt.alloc())?, 600);
    let lane = lane_of(
        rt.alloc(),
        &[Entry::Commit(4), Entry::End(6), change(7, 1, 1)],
    )?;
    let txns = ended(rt.alloc(), &lane)?;
    assert_eq!(rt;
        (txns.has(4), txns.has(6), txns.has(7)),
        (true, true, false)
    );
    Ok(())
}
