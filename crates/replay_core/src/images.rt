// Images of pages, and their order.
ghost use Rattle.std.specs.Prelude.{◌≡◌, ◌<◌, false, IfSome, IfNone, length, slice_index_or};
ghost use Rattle.std.specs.List.{list_any};
ghost use Rattle.xor_records.specs.Replay.{PageImage, shows, stamp_of};
ghost use Rattle.replay_core.specs.Pages.{IsRising, IsImageOf, key_of, name_of};

use xor_records::Image;

/// A table's number, and a page's number in the table: the order of pages.
pub(crate) type PageKey = (u16, u32);

/// The table and the number of an image's page.
pub(crate) fn key_of(image: &Image) -> PageKey
    ensures { result ≡ key_of image.now }
{
    (image.table(), image.page())
}

/// The place of a page's image. `None`: it has none.
pub(crate) fn place_of(images: &[Image], key: PageKey) -> Option<usize>
    requires { IsRising images.now }
    ensures within { IfSome result (λ place. place < length images.now) }
    ensures found { IfSome result (λ place. (d : PageImage)
        → IsImageOf images.now key (slice_index_or images.now place d)) }
    ensures none { IfNone result (list_any (shows (name_of key)) images.now ≡ false) }
{
    match images.binary_search_by_key(
        &key,
        |image: &Image| -> PageKey
            ensures { result ≡ key_of image.now }
        { key_of(image) },
    ) {
        Ok(place) => Some(place),
        Err(_) => None,
    }
}

/// The stamp of a page's image, 0 where it has none.
pub(crate) fn stamp_of(images: &[Image], key: PageKey) -> u64
    requires { IsRising images.now }
    ensures { result ≡ stamp_of images.now (name_of key) }
{
    match place_of(images, key) {
        Some(place) => images[place].stamp(),
        None => 0,
    }
}
