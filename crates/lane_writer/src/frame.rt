ghost use Rattle.std.specs.Prelude.{◌≡◌, ◌≤◌, ◌^◌, length};
ghost use Rattle.lane_format.specs.Lane.{body_of, frame_text};

/// Fills in what stands round the body of a frame: its length before it, and behind it the next gate, closed.
pub(crate) fn fill(frame: &mut [u8])
    requires room { 6 ≤ length frame.old }
    requires short { length frame.old ≤ 2 ^ 31 }
    ensures { frame.new ≡ frame_text (body_of frame.old) }
{
    let end = frame.len() - 1;
    let length = (end - 4) as u32;
    frame[..4].copy_from_slice(&length.to_le_bytes());
    frame[end] = 0;
}
