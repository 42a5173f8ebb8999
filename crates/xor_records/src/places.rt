// The fields of a record, where they stand.
ghost use Rattle.std.specs.Prelude.{◌≡◌, ◌≤◌, length};
ghost use Rattle.xor_records.specs.Places.{txn_at, table_at, page_at, stamp_at, offset_at, length_at};

use fields::{get_u16, get_u32, get_u64};

/// The kind of a change, of a commit record and of an end record.
pub(crate) const DIFF: u8 = 1;

pub(crate) const COMMIT: u8 = 2;

pub(crate) const END: u8 = 3;

#[tactic(auto, unfolding(crate::specs::Places::txn_at))]
pub(crate) fn txn_at(from: &[u8]) -> u64
    requires { 9 ≤ length from.now }
    ensures { result ≡ txn_at from.now }
{
    get_u64(from, 1)
}

#[tactic(auto, unfolding(crate::specs::Places::table_at))]
pub(crate) fn table_at(from: &[u8]) -> u16
    requires { 11 ≤ length from.now }
    ensures { result ≡ table_at from.now }
{
    get_u16(from, 9)
}

#[tactic(auto, unfolding(crate::specs::Places::page_at))]
pub(crate) fn page_at(from: &[u8]) -> u32
    requires { 15 ≤ length from.now }
    ensures { result ≡ page_at from.now }
{
    get_u32(from, 11)
}

#[tactic(auto, unfolding(crate::specs::Places::stamp_at))]
pub(crate) fn stamp_at(from: &[u8]) -> u64
    requires { 23 ≤ length from.now }
    ensures { result ≡ stamp_at from.now }
{
    get_u64(from, 15)
}

#[tactic(auto, unfolding(crate::specs::Places::offset_at))]
pub(crate) fn offset_at(from: &[u8]) -> u16
    requires { 25 ≤ length from.now }
    ensures { result ≡ offset_at from.now }
{
    get_u16(from, 23)
}

#[tactic(auto, unfolding(crate::specs::Places::length_at))]
pub(crate) fn length_at(from: &[u8]) -> u16
    requires { 27 ≤ length from.now }
    ensures { result ≡ length_at from.now }
{
    get_u16(from, 25)
}
