use xor_records::{RecView, read_rec};

/// A record of a lane's file, in bytes that the file's reader lends.
#[derive(Debug, Drop)]
pub struct Item<'a> {
    at: u64,
    bytes: &'a [u8],
}

/// Where a record stands in the file: the place at which it begins, and how many bytes it has.
#[derive(Clone, Copy, Debug)]
pub(crate) struct Found {
    pub(crate) at: u64,
    pub(crate) len: usize,
}

impl<'a> Item<'a> {
    ghost use Rattle.std.specs.Prelude.{◌≡◌};
    ghost use Rattle.xor_records.specs.Record.{Record};
    ghost use Rattle.replay_core.specs.Items.{Shows, place_of};

    /// Of the bytes of a record, and the place of the first.
    pub(crate) fn new(at: u64, bytes: &'a [u8]) -> Item<'a>
        ensures at { result.at ≡ at }
        ensures bytes { result.bytes.now ≡ bytes.now }
    {
        Item { at, bytes }
    }

    /// The place in the file at which the record begins.
    pub fn at(&self) -> u64
        ensures { result ≡ place_of self.now }
    {
        self.at
    }

    /// The record. Whatever a reader gave has one.
    pub fn rec(&self) -> RecView<'a>
        requires { (rec : Record) × Shows self.now rec }
        ensures { (rec : Record) → Shows self.now rec → result ≡ rec }
    {
        match read_rec(self.bytes) {
            Ok((rec, _)) => rec,
            Err(_) => unreachable!(),
        }
    }
}
