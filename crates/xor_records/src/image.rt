// Pages as they stood.
use fields::xor_into;
use std::marker::Model;

/// A page as it stood when it had this stamp, seen with its bytes as their list.
#[derive(Debug, Drop)]
pub struct Image {
    table: u16,
    page: u32,
    stamp: u64,
    bytes: Vec<u8>,
}

impl Model for Image {
    ghost use Rattle.xor_records.specs.Replay.{PageImage};

    ghost Value = { PageImage };

    ghost view = { λ i. record { table = i.table; page = i.page; stamp = i.stamp; bytes = i.bytes.items } };
}

impl Image {
    ghost use Rattle.std.specs.Prelude.{◌≡◌, length};
    ghost use Rattle.fields.specs.Toggle.{byte_at, toggled};
    ghost use Rattle.xor_records.specs.Replay.{PageImage};

    /// The image of page number `page` of a table.
    pub fn new(table: u16, page: u32, stamp: u64, bytes: Vec<u8>) -> Image
        ensures { result ≡ record { table = table; page = page; stamp = stamp; bytes = bytes.items } }
    {
        Image {
            table,
            page,
            stamp,
            bytes,
        }
    }

    /// The number of its table.
    pub fn table(&self) -> u16
        ensures { result ≡ self.now.table }
    {
        self.table
    }

    /// Its number in the table.
    pub fn page(&self) -> u32
        ensures { result ≡ self.now.page }
    {
        self.page
    }

    /// Its stamp.
    pub fn stamp(&self) -> u64
        ensures { result ≡ self.now.stamp }
    {
        self.stamp
    }

    /// Its bytes.
    pub fn bytes(&self) -> &[u8]
        ensures { result.now ≡ self.now.bytes }
    {
        self.bytes.as_slice()
    }

    /// Each of its bytes becomes its XOR with the byte of `by` at the same place.
    pub fn toggle(&mut self, by: &[u8])
        requires { length self.old.bytes ≡ length by.now }
        ensures { self.new ≡ record self.old { bytes = toggled byte_at self.old.bytes by.now } }
    {
        xor_into(&mut self.bytes, by);
    }
}
