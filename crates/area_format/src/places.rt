// The fields of an area's file, where they stand.
ghost use Rattle.std.specs.Prelude.{◌≡◌, ◌≤◌, length};
ghost use Rattle.area_format.specs.Places.{count_at, schema_len_at, settings_at, u16_at, u64_at};

use crate::Settings;
use fields::{get_u16, get_u32, get_u64};

/// The byte that opens a gate.
pub(crate) const OPEN: u8 = 1;

/// The one format that is known.
pub(crate) const FORMAT: u16 = 1;

/// How many bytes stand up to the generation's end.
pub(crate) const START: usize = 11;

/// How many bytes stand before the schema, and so its place.
pub(crate) const FIELDS: usize = 35;

/// Where it stands how many bytes the schema has.
pub(crate) const SCHEMA_LEN: usize = 33;

/// How many bytes the head of an image has.
pub(crate) const HEAD: usize = 14;

/// How many bytes an image has, with its head.
pub(crate) const IMAGE: u64 = 4110;

/// The greatest generation.
pub(crate) const LAST_GENERATION: u64 = 1 << 63;

pub(crate) fn format_at(front: &[u8]) -> u16
    requires { 11 ≤ length front.now }
    ensures { result ≡ u16_at 1 front.now }
{
    get_u16(front, 1)
}

pub(crate) fn generation_at(front: &[u8]) -> u64
    requires { 11 ≤ length front.now }
    ensures { result ≡ u64_at 3 front.now }
{
    get_u64(front, 3)
}

#[tactic(auto, unfolding(crate::specs::Places::settings_at))]
pub(crate) fn settings_at(front: &[u8]) -> Settings
    requires { 35 ≤ length front.now }
    ensures { result ≡ settings_at front.now }
{
    Settings {
        lanes: get_u16(front, 11),
        pages: get_u32(front, 13),
        nodes: get_u32(front, 17),
        txn: get_u32(front, 21),
        segment: get_u32(front, 25),
    }
}

pub(crate) fn count_at(front: &[u8]) -> u32
    requires { 35 ≤ length front.now }
    ensures { result ≡ count_at front.now }
{
    get_u32(front, 29)
}

pub(crate) fn schema_len_at(front: &[u8]) -> u16
    requires { 35 ≤ length front.now }
    ensures { result ≡ schema_len_at front.now }
{
    get_u16(front, SCHEMA_LEN)
}
