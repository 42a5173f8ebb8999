// How fast the bytes of pages are compared, XORed and changed, beside a copy of the same bytes.
use crate::desk::{desks, toggle_pages};
use fields::{diff_span, xor_into};
use std::io;
use std::time::{Duration, Instant};

/// The bytes that are worked on: 4,096 pages.
const BYTES: usize = 16_777_216;

const PAGE: usize = 4096;

pub(crate) const PAGES: usize = 4096;
/// How often each is done.
const ROUNDS: usize = 20;
/// How often each page is changed.
const CHANGES: usize = 500;

/// The bytes of page k.
fn page(bytes: &[u8], k: usize) -> &[u8] {
    let at = k.min(PAGES) * PAGE;
    if at + PAGE <= bytes.len() {
        return &bytes[at..at + PAGE];
    }
    &bytes[..0]
}

fn copy_pages(into: &mut [u8], from: &[u8]) {
    for k in 0..PAGES {
        let at = k * PAGE;
        if at + PAGE <= into.len() && at + PAGE <= from.len() {
            into[at..at + PAGE].copy_from_slice(&from[at..at + PAGE]);
        }
    }
}

fn xor_pages(into: &mut [u8], by: &[u8]) {
    for k in 0..PAGES {
        let at = k * PAGE;
        if at + PAGE <= into.len() && at + PAGE <= by.len() {
            xor_into(&mut into[at..at + PAGE], &by[at..at + PAGE]);
        }
    }
}

/// The bytes of the spans in which the pages differ.
fn spans(a: &[u8], b: &[u8]) -> usize {
    let mut total: usize = 0;
    for k in 0..PAGES {
        let (a, b) = (page(a, k), page(b, k));
        if a.len() == b.len() {
            if let Some((_, len)) = diff_span(a, b) {
                total = total.saturating_add(len);
            }
        }
    }
    total
}

/// Another byte in each page.
fn change_pages(bytes: &mut [u8], round: u8) {
    for k in 0..PAGES {
        let at = k * PAGE + 2000;
        if at < bytes.len() {
            bytes[at] ^= round | 1;
        }
    }
}

/// How many there were in each microsecond of a time.
fn rate(count: usize, time: Duration) -> u64 {
    let micros = time.as_secs().saturating_mul(1_000_000);
    let micros = micros.saturating_add(u64::from(time.subsec_micros()));
    count as u64 / micros.max(1)
}

fn print_rate(rt: &impl Print, what: &str, time: Duration) -> io::Result<()> {
    let rate = rate(BYTES * ROUNDS, time);
    rt.println(format_args!("{what}: {rate} million bytes a second"))
}

/// Times them.
pub(crate) fn time(rt: &HostRuntime) -> io::Result<()> {
    let alloc = rt.alloc();
    let mut a = vec![in alloc; 1u8; BYTES]?;
    let mut b = vec![in alloc; 3u8; BYTES]?;
    copy_pages(&mut a, &b);
    let start = Instant::now(rt)?;
    for _ in 0..ROUNDS {
        copy_pages(&mut a, &b);
    }
    print_rate(rt, "copy", start.elapsed(rt)?)?;
    let start = Instant::now(rt)?;
    for _ in 0..ROUNDS {
        xor_pages(&mut a, &b);
    }
    print_rate(rt, "xor_into", start.elapsed(rt)?)?;
    copy_pages(&mut a, &b);
    let mut total: usize = 0;
    let start = Instant::now(rt)?;
    for round in 0..ROUNDS {
        change_pages(&mut b, round as u8);
        total = total.saturating_add(spans(&a, &b));
    }
    print_rate(rt, "diff_span", start.elapsed(rt)?)?;
    println!(rt; "{total} bytes differ")?;
    let Ok(mut desks) = desks(alloc) else {
        return println!(rt; "toggle: out of memory");
    };
    let start = Instant::now(rt)?;
    for _ in 0..CHANGES {
        toggle_pages(&mut desks);
    }
    let rate = rate(PAGES * CHANGES, start.elapsed(rt)?);
    println!(rt; "toggle: {rate} million toggles a second")
}
