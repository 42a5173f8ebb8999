use arrayvec::ArrayVec;
use io_edge::{Failed, Sink};
use itoa::{Buffer, Integer};

// As many bytes are brought to the sink at once.
const PAGE: usize = 4096;

/// Brings text to a sink, a page at a time. After a fault of the sink nothing more is brought to it.
pub struct Printer {
    page: ArrayVec<u8, PAGE>,
    failed: bool,
}

impl Printer {
    ghost use Rattle.std.specs.Prelude.{◌≡◌, ℕ, List, [], ◌∷◌, Option};
    ghost use Rattle.reply_text.specs.Printed.{EndsPrinted, IsPrinted, Prints};

    /// A printer that has printed nothing.
    pub fn new() -> Printer
        ensures { (taken : Option (List ℕ)) (faults : ℕ) → IsPrinted taken faults [] result taken faults }
    {
        Printer {
            page: ArrayVec::new(),
            failed: false,
        }
    }

    // Prints a byte.
    pub(crate) fn print_byte<K: Sink>(&mut self, sink: &mut K, byte: u8)
        ensures { Prints K.Sink self.old sink.old (byte ∷ []) self.new sink.new }
    {
        if self.page.is_full() {
            self.flush(sink);
        }
        self.page.push(byte);
    }

    // Prints a text.
    pub(crate) fn print<K: Sink>(&mut self, sink: &mut K, text: &str)
        ensures { Prints K.Sink self.old sink.old text.now self.new sink.new }
    {
        for byte in text.as_bytes() {
            self.print_byte(sink, *byte);
        }
    }

    // Prints a number in decimal.
    pub(crate) fn print_number<K: Sink, N: Integer>(&mut self, sink: &mut K, number: N)
        ensures { Prints K.Sink self.old sink.old (N.text number) self.new sink.new }
    {
        let mut buffer = Buffer::new();
        self.print(sink, buffer.format(number));
    }

    /// Brings what waits to the sink. `Failed` says that the sink has failed, now or before.
    pub fn finish<K: Sink>(mut self, sink: &mut K) -> Result<(), Failed>
        ensures { (start : Option (List ℕ)) (before : ℕ) (text : List ℕ)
            → IsPrinted start before text self (K.taken sink.old) (K.faults sink.old)
            → EndsPrinted start before text result (K.taken sink.new) (K.faults sink.new) }
    {
        self.flush(sink);
        let Printer { page: _, failed } = self;
        if failed { Err(Failed) } else { Ok(()) }
    }

    fn flush<K: Sink>(&mut self, sink: &mut K)
        ensures printed { Prints K.Sink self.old sink.old [] self.new sink.new }
        ensures empty { self.new.page.items ≡ [] }
    {
        if self.failed {
            self.page.clear();
            return;
        }
        let pushed = sink.push(self.page.as_slice());
        self.page.clear();
        self.failed = pushed.is_err();
    }
}
