//! What the scripts of bench/ time. The first word says which:
//!
//! - `index`, the number of keys, and how many each reader looks up;
//! - `locks`;
//! - `pages`;
//! - `turns`, `turnstile` or `mutex`, the number of threads (1 to 63), and the turns of each.
//!
//! Without words it does nothing.
#![tactic(auto)]

mod desk;
mod index;
mod indexed;
mod locked;
mod locks;
mod pages;
mod plain;
mod scanned;
mod times;
mod turns;
mod words;

use std::io;
use turns::By;
use words::{is_word, number};

fn main(rt: HostRuntime) -> io::Result<()> {
    if is_word(&rt, 1, "index") {
        return index::time(&rt, rt.alloc(), number(&rt, 2), number(&rt, 3));
    }
    if is_word(&rt, 1, "locks") {
        return locks::time(&rt);
    }
    if is_word(&rt, 1, "pages") {
        return pages::time(&rt);
    }
    if is_word(&rt, 1, "turns") {
        let by = if is_word(&rt, 2, "mutex") {
            By::Mutex
        } else {
            By::Turnstile
        };
        return turns::time(&rt, rt.alloc(), by, number(&rt, 3), number(&rt, 4));
    }
    Ok(())
}
