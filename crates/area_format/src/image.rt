// Reads the images of an area.
ghost use Rattle.std.specs.Prelude.{◌≡◌, ◌≢◌, ◌+◌, ◌*◌, ◌<◌, ◌≤◌, length, Err, IfOk, IsTrue};
ghost use Rattle.std.specs.Option.{ForSome};
ghost use Rattle.base_types.specs.Causes.{HasCause};
ghost use Rattle.disk_core.specs.Moments.{OnlyReads};
ghost use Rattle.area_format.specs.AreaRead.{is_image_at};
ghost use Rattle.area_format.specs.Places.{image_bytes_at, image_head_at, image_place};
ghost use Rattle.area_format.specs.Results.{FaultHasCause, IsHeaderOf, IsUnder, NamesFault, image_fault};

use crate::places::{FIELDS, HEAD, IMAGE, SCHEMA_LEN};
use crate::{AreaReadFault, Header, ImageHead};
use disk_core::{Disk, Failed};
use fields::{get_u16, get_u32, get_u64};

/// Reads image `k` of an area, counted from 0: its 4,096 bytes into `into`, and its head. `Damaged` names
/// the place of the image, exactly where its table isn't one of the schema's, its page isn't below the
/// setting, or it doesn't come after the image before it. It takes no memory.
pub fn read_image<D: Disk>(
    disk: &mut D,
    header: &Header,
    k: u32,
    into: &mut [u8],
) -> Result<ImageHead, AreaReadFault>
    requires inside { k < header.now.count }
    requires page { length into.old ≡ 4096 }
    requires header { ForSome (D.content disk.old) (λ bytes. IsHeaderOf bytes header.now) }

    // It says what stands there, where the content is known. Whatever the disk, it is of a page that may be.
    ensures image { ForSome (D.content disk.old) (λ bytes. NamesFault (image_fault bytes k)
        (λ head. (head ≡ image_head_at bytes k) × (into.new ≡ image_bytes_at bytes k)) result) }
    ensures under { IfOk result (IsUnder header.now) }

    // It takes no memory.
    ensures ample { result ≢ Err AreaReadFault.OutOfMemory }

    // The disk is only read, and a fault of it comes where one call of it failed.
    ensures only_reads { OnlyReads D.Disk disk.old disk.new }
    ensures cause { FaultHasCause (D.faults disk.old) (D.faults disk.new) result }
{
    let images = read_images_place(disk)?;
    let head = read_head(disk, images, k)?;
    if !is_fine(disk, header, images, k, head)? {
        return Err(AreaReadFault::Damaged {
            at: place_of(images, k),
        });
    }
    disk.read_at(place_of(images, k) + HEAD as u64, into)?;
    Ok(head)
}

/// Where the images begin, behind the schema.
fn read_images_place<D: Disk>(disk: &mut D) -> Result<u64, Failed>
    requires { ForSome (D.content disk.old) (λ bytes. 35 ≤ length bytes) }
    ensures place { IfOk result (λ images. ForSome (D.content disk.old) (λ bytes. images ≡ image_place bytes 0)) }
    ensures near { IfOk result (λ images. images ≤ 65570) }
    ensures only_reads { OnlyReads D.Disk disk.old disk.new }
    ensures cause { HasCause (D.faults disk.old) (D.faults disk.new) result }
{
    let mut len = [0; 2];
    disk.read_at(SCHEMA_LEN as u64, &mut len)?;
    Ok(FIELDS as u64 + u64::from(u16::from_le_bytes(len)))
}

/// Where image `k` stands.
fn place_of(images: u64, k: u32) -> u64
    requires { images ≤ 65570 }
    ensures { result ≡ images + 4110 * k }
{
    images + IMAGE * u64::from(k)
}

/// The head of image `k`.
fn read_head<D: Disk>(disk: &mut D, images: u64, k: u32) -> Result<ImageHead, Failed>
    requires near { images ≤ 65570 }
    requires place { ForSome (D.content disk.old) (λ bytes. images ≡ image_place bytes 0) }
    requires inside { ForSome (D.content disk.old) (λ bytes. image_place bytes (k + 1) ≤ length bytes) }
    ensures head { IfOk result (λ head. ForSome (D.content disk.old) (λ bytes. head ≡ image_head_at bytes k)) }
    ensures only_reads { OnlyReads D.Disk disk.old disk.new }
    ensures cause { HasCause (D.faults disk.old) (D.faults disk.new) result }
{
    let mut text = [0; HEAD];
    disk.read_at(place_of(images, k), &mut text)?;
    Ok(ImageHead {
        table: get_u16(&text, 0),
        page: get_u32(&text, 2),
        stamp: get_u64(&text, 6),
    })
}

/// Whether image `k`, which has this head, breaks no rule.
fn is_fine<D: Disk>(
    disk: &mut D,
    header: &Header,
    images: u64,
    k: u32,
    head: ImageHead,
) -> Result<bool, Failed>
    requires near { images ≤ 65570 }
    requires inside { k < header.now.count }
    requires place { ForSome (D.content disk.old) (λ bytes. images ≡ image_place bytes 0) }
    requires header { ForSome (D.content disk.old) (λ bytes. IsHeaderOf bytes header.now) }
    requires head { ForSome (D.content disk.old) (λ bytes. head ≡ image_head_at bytes k) }
    ensures fine { IfOk result (λ fine. ForSome (D.content disk.old) (λ bytes. fine ≡ is_image_at bytes k)) }
    ensures under { IfOk result (λ fine. IsTrue fine → IsUnder header.now head) }
    ensures only_reads { OnlyReads D.Disk disk.old disk.new }
    ensures cause { HasCause (D.faults disk.old) (D.faults disk.new) result }
{
    if !header.admits(head) {
        return Ok(false);
    }
    if k == 0 {
        return Ok(true);
    }
    let before = read_head(disk, images, k - 1)?;
    Ok(before.precedes(head))
}
