// The fields, the schema and the images of an area, as the bytes that are written.
ghost use Rattle.std.specs.Prelude.{◌≡◌, ◌≤◌, length, take};
ghost use Rattle.row_types.specs.SchemaText.{schema_text};
ghost use Rattle.area_format.specs.Area.{fields_text, image_text};

use area_format::{ImageHead, Settings};
use fields::{put_u16, put_u32, put_u64};
use row_types::{Schema, schema_texts_are_short};

/// The bytes of an image with its head.
pub(crate) const IMAGE: usize = 4_110;
/// The most bytes of a schema's text, and some to spare.
pub(crate) const SCHEMA: usize = 20_480;
/// The bytes of an image's head.
const HEAD: usize = 14;

/// What stands behind the gate: the format, the generation, the settings and how many images follow.
pub(crate) fn fields(generation: u64, settings: &Settings, count: u32) -> [u8; 32]
    ensures { result ≡ fields_text generation settings.now count }
{
    let [g0, g1, g2, g3, g4, g5, g6, g7] = generation.to_le_bytes();
    let [l0, l1] = settings.lanes.to_le_bytes();
    let [p0, p1, p2, p3] = settings.pages.to_le_bytes();
    let [n0, n1, n2, n3] = settings.nodes.to_le_bytes();
    let [t0, t1, t2, t3] = settings.txn.to_le_bytes();
    let [s0, s1, s2, s3] = settings.segment.to_le_bytes();
    let [c0, c1, c2, c3] = count.to_le_bytes();
    [
        1, 0, g0, g1, g2, g3, g4, g5, g6, g7, l0, l1, p0, p1, p2, p3, n0, n1, n2, n3, t0, t1, t2,
        t3, s0, s1, s2, s3, c0, c1, c2, c3,
    ]
}

/// Fills `into` with an image: its head and its bytes.
pub(crate) fn lay_image(head: &ImageHead, bytes: &[u8], into: &mut [u8])
    requires page { length bytes.now ≡ 4096 }
    requires room { length into.old ≡ 4110 }
    ensures { into.new ≡ image_text (record { head = head.now; bytes = bytes.now }) }
{
    put_u16(into, 0, head.table);
    put_u32(into, 2, head.page);
    put_u64(into, 6, head.stamp);
    into[HEAD..].copy_from_slice(bytes);
}

/// Writes the text of a schema to the front of `into`, and says how long it is.
pub(crate) fn lay_schema(schema: &Schema, into: &mut [u8]) -> usize
    requires { length into.old ≡ 20480 }
    ensures text { take result into.new ≡ schema_text schema.now }
    ensures len { result ≡ length (schema_text schema.now) }
    ensures short { result ≤ 18993 }
    ensures room { length into.new ≡ 20480 }
{
    schema_texts_are_short();
    let _tables = schema.tables();
    schema.write_schema(into)
}
