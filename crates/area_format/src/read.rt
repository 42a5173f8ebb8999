// Reads the head of an area.
ghost use Rattle.std.specs.Prelude.{◌≡◌, ◌≢◌, ◌+◌, ◌≤◌, ◌^◌, ℕ, List, length, take, None, Err, IfOk, IfSome};
ghost use Rattle.std.specs.Option.{ForSome};
ghost use Rattle.fields.specs.Fields.{bytes_at};
ghost use Rattle.row_types.specs.SchemaReading.{schema_at};
ghost use Rattle.disk_core.specs.Moments.{OnlyReads};
ghost use Rattle.area_format.specs.AreaRead.{body_fault, header_fault, schema_in, start_fault};
ghost use Rattle.area_format.specs.Places.{u64_at};
ghost use Rattle.area_format.specs.Results.{FaultHasCause, IsHeader, IsHeaderOf};
ghost use Rattle.area_format.specs.Results.{NamesFault, NamesFaultOfOpen};

use crate::front::{fields_fault, is_open, start_fault};
use crate::places::{
    FIELDS, FORMAT, IMAGE, START, count_at, generation_at, schema_len_at, settings_at,
};
use crate::{AreaReadFault, Header};
use disk_core::Disk;
use row_types::{OutOfMemory, Schema};
use std::alloc::Global;

/// Reads the generation of an area, which its first eleven bytes say: None exactly where its gate isn't
/// open. `Damaged` names the first rule that these bytes break: 0 where there are fewer, 1 for the format, 3
/// for the generation. An opening chooses between two areas by it.
pub fn read_generation<D: Disk>(disk: &mut D) -> Result<Option<u64>, AreaReadFault>
    // It says what the first bytes do, where the content is known. Whatever the disk, it is a generation.
    ensures generation { ForSome (D.content disk.old) (λ bytes.
        NamesFaultOfOpen bytes (start_fault bytes) (λ generation. generation ≡ u64_at 3 bytes) result) }
    ensures limits { IfOk result (λ found. IfSome found (λ generation.
        (1 ≤ generation) × (generation ≤ 2 ^ 63))) }

    // It takes no memory.
    ensures ample { result ≢ Err AreaReadFault.OutOfMemory }

    // The disk is only read, and a fault of it comes where one call of it failed.
    ensures only_reads { OnlyReads D.Disk disk.old disk.new }
    ensures cause { FaultHasCause (D.faults disk.old) (D.faults disk.new) result }
{
    let size = disk.size()?;
    let mut front = [0; START];
    let front = &mut front[..size.min(START as u64) as usize];
    disk.read_at(0, front)?;
    if !is_open(front) {
        return Ok(None);
    }
    match start_fault(front) {
        Some(at) => Err(AreaReadFault::Damaged { at }),
        None => Ok(Some(generation_at(front))),
    }
}

/// Reads the head of an area: None exactly where its gate isn't open. `Damaged` names the first rule that
/// the head of an open file breaks: the place of its field, 35 for any fault of the schema, and 0 where the
/// file ends before its fields do, before its schema does, or before its last image does. Memory is taken
/// for the schema alone, and once its text was found to lie within the file.
pub fn read_header<D: Disk>(alloc: Global, disk: &mut D) -> Result<Option<Header>, AreaReadFault>
    // It says what the head does, where the content is known. Whatever the disk, it is a header.
    ensures header { ForSome (D.content disk.old) (λ bytes.
        NamesFaultOfOpen bytes (header_fault bytes) (IsHeaderOf bytes) result) }
    ensures limits { IfOk result (λ found. IfSome found IsHeader) }

    // The disk is only read, and a fault of it comes where one call of it failed.
    ensures only_reads { OnlyReads D.Disk disk.old disk.new }
    ensures cause { FaultHasCause (D.faults disk.old) (D.faults disk.new) result }
{
    let size = disk.size()?;
    let mut front = [0; FIELDS];
    let front = &mut front[..size.min(FIELDS as u64) as usize];
    disk.read_at(0, front)?;
    if !is_open(front) {
        return Ok(None);
    }
    if let Some(at) = start_fault(front) {
        return Err(AreaReadFault::Damaged { at });
    }
    if let Some(at) = fields_fault(front) {
        return Err(AreaReadFault::Damaged { at });
    }
    let schema = read_schema(alloc, disk, size, front)?;
    Ok(Some(Header {
        generation: generation_at(front),
        settings: settings_at(front),
        schema,
        count: count_at(front),
    }))
}

/// Reads the schema, and sees that the file doesn't end before its last image does.
fn read_schema<D: Disk>(
    alloc: Global,
    disk: &mut D,
    size: u64,
    front: &[u8],
) -> Result<Schema, AreaReadFault>
    requires size { ForSome (D.content disk.old) (λ bytes. size ≡ length bytes) }
    requires front { ForSome (D.content disk.old) (λ bytes. front.now ≡ take 35 bytes) }
    requires whole { 35 ≤ length front.now }
    ensures schema { ForSome (D.content disk.old) (λ bytes.
        NamesFault (body_fault bytes) (λ schema. schema ≡ schema_in bytes) result) }
    ensures only_reads { OnlyReads D.Disk disk.old disk.new }
    ensures cause { FaultHasCause (D.faults disk.old) (D.faults disk.new) result }
{
    let len = schema_len_at(front);
    let images = FIELDS as u64 + u64::from(len);
    if size < images {
        return Err(AreaReadFault::Damaged { at: 0 });
    }
    let text = read_text(alloc, disk, len)?;
    let Some(schema) = schema_of(alloc, &text)? else {
        return Err(AreaReadFault::Damaged { at: FIELDS as u64 });
    };
    if size < images + IMAGE * u64::from(count_at(front)) {
        return Err(AreaReadFault::Damaged { at: 0 });
    }
    Ok(schema)
}

/// The text of the schema, of so many bytes.
fn read_text<D: Disk>(alloc: Global, disk: &mut D, len: u16) -> Result<Vec<u8>, AreaReadFault>
    requires { ForSome (D.content disk.old) (λ bytes. 35 + len ≤ length bytes) }
    ensures text { ForSome (D.content disk.old) (λ bytes.
        NamesFault None (λ text. text.items ≡ bytes_at 35 len bytes) result) }
    ensures only_reads { OnlyReads D.Disk disk.old disk.new }
    ensures cause { FaultHasCause (D.faults disk.old) (D.faults disk.new) result }
{
    let mut text: Vec<u8> = vec![in alloc; 0; len as usize]?;
    disk.read_at(FIELDS as u64, &mut text)?;
    Ok(text)
}

/// The schema of a text. `None`: the text is none of a schema.
fn schema_of(alloc: Global, text: &[u8]) -> Result<Option<Schema>, OutOfMemory>
    ensures { IfOk result (λ found. found ≡ schema_at text.now) }
{
    Schema::read_schema(alloc, FORMAT, text)
}
