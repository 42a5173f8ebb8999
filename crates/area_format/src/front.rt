// What the first bytes of an area's file say, up to its schema.
ghost use Rattle.std.specs.Prelude.{◌≡◌, ◌↔◌, ◌≤◌, ◌^◌, length, IsTrue, IsNone};
ghost use Rattle.area_format.specs.Area.{IsOpen};
ghost use Rattle.area_format.specs.AreaRead.{fields_fault, start_fault};
ghost use Rattle.area_format.specs.Places.{count_at, settings_at, u64_at};
ghost use Rattle.area_format.specs.Settings.{IsSettings};

use crate::places::{
    FIELDS, FORMAT, LAST_GENERATION, OPEN, START, count_at, format_at, generation_at, settings_at,
};

pub(crate) fn is_open(front: &[u8]) -> bool
    ensures { IsTrue result ↔ IsOpen front.now }
{
    !front.is_empty() && front[0] == OPEN
}

/// The place of the first rule that the first eleven bytes break.
#[tactic(auto, unfolding(crate::specs::AreaRead::start_fault))]
pub(crate) fn start_fault(front: &[u8]) -> Option<u64>
    ensures fault { result ≡ start_fault front.now }
    ensures whole { IsNone result → 11 ≤ length front.now }
    ensures generation { IsNone result → (1 ≤ u64_at 3 front.now) × (u64_at 3 front.now ≤ 2 ^ 63) }
{
    if front.len() < START {
        return Some(0);
    }
    if format_at(front) != FORMAT {
        return Some(1);
    }
    if !(1..=LAST_GENERATION).contains(&generation_at(front)) {
        return Some(3);
    }
    None
}

/// The place of the first rule that the settings and the count of images break.
#[tactic(auto, unfolding(crate::specs::AreaRead::fields_fault))]
pub(crate) fn fields_fault(front: &[u8]) -> Option<u64>
    ensures fault { result ≡ fields_fault front.now }
    ensures whole { IsNone result → 35 ≤ length front.now }
    ensures settings { IsNone result → IsSettings (settings_at front.now) }
    ensures count { IsNone result → count_at front.now ≤ (settings_at front.now).pages }
{
    if front.len() < FIELDS {
        return Some(0);
    }
    let settings = settings_at(front);
    if let Some(at) = settings.fault() {
        return Some(at);
    }
    if count_at(front) > settings.pages {
        return Some(29);
    }
    None
}
