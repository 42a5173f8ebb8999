// What a crash makes of the bytes of a disk in memory.
ghost use Rattle.std.specs.Prelude.{◌≡◌, EachIndex, slice_index, length};
ghost use Rattle.disk_core.specs.Places.{chosen_or_synced, crashed_byte};

use crate::history::History;

/// Makes of what a read gives the bytes that a crash with this choice leaves. `synced` is what a read gave
/// at the last sync.
pub(crate) fn tear(image: &mut [u8], synced: &[u8], history: &History, choice: &[u8])
    ensures { EachIndex image.new (λ place. slice_index image.new place
        ≡ crashed_byte synced.now image.old history.now.calls choice.now place) }
{
    if choice.is_empty() {
        return;
    }
    let mut taken = 0;
    for (place, byte) in image.iter_mut().enumerate() {
        if history.is_written(place) {
            *byte = chosen_or_synced(synced, history, place, choice[taken % choice.len()]);
            taken += 1;
        }
    }
}

fn chosen_or_synced(synced: &[u8], history: &History, place: usize, chosen: u8) -> u8
    ensures { result ≡ chosen_or_synced synced.now history.now.calls place chosen }
{
    let synced = synced.get(place).copied().unwrap_or(0);
    if chosen == synced || history.is_left(place, chosen) {
        chosen
    } else {
        synced
    }
}
