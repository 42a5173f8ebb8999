// The last line of a run that ends with a fault.
ghost use Rattle.std.specs.Prelude.{◌++◌, codes};
ghost use Rattle.std.specs.Fmt.{decimal};
ghost use Rattle.reply_text.specs.Printed.{Prints};
ghost use Rattle.reply_text.specs.Text.{file_text, fault_text, last_line, place_text};

use crate::printer::Printer;
use disk_core::FileName;
use io_edge::Sink;

/// Where the files of a database are damaged.
#[derive(Clone, Copy, Debug, PartialEq, Eq)]
pub enum Place {
    /// At this byte of a file, counted from 0.
    File { file: FileName, at: u64 },
    /// In this slot of a page of a table.
    Slot { table: u16, page: u32, slot: u16 },
    /// A table has two rows with this key.
    SameKey { table: u16, key: i64 },
}

/// A fault that ends a run.
#[derive(Clone, Copy, Debug, PartialEq, Eq)]
pub enum Fault {
    /// The words are no form of the command.
    Usage,
    /// No memory was found.
    OutOfMemory,
    /// The disk of this file failed.
    Disk(FileName),
    /// The source failed.
    Source,
    /// The input is no script; `at` is the first place at which it isn't.
    Script { at: u64 },
    /// What is read isn't in the formats.
    Damaged(Place),
    /// There is no base.
    NoBase,
    /// A base is there already.
    Exists,
    /// `given` lanes were passed in, and the base has `wanted`.
    Lanes { given: u64, wanted: u64 },
}

impl Printer {
    /// Prints the last line of a run that ends with this fault.
    pub fn last_line<K: Sink>(&mut self, sink: &mut K, fault: Fault)
        ensures { Prints K.Sink self.old sink.old (last_line fault) self.new sink.new }
    {
        self.print(sink, "fault ");
        print_fault(fault, self, sink);
        self.print(sink, "\n");
    }
}

fn print_fault<K: Sink>(fault: Fault, printer: &mut Printer, sink: &mut K)
    ensures { Prints K.Sink printer.old sink.old (fault_text fault) printer.new sink.new }
{
    match fault {
        Fault::Usage => printer.print(sink, "USAGE"),
        Fault::OutOfMemory => printer.print(sink, "MEMORY"),
        Fault::Disk(file) => {
            printer.print(sink, "DISK ");
            print_file(file, printer, sink);
        }
        Fault::Source => printer.print(sink, "SOURCE"),
        Fault::Script { at } => {
            printer.print(sink, "SCRIPT ");
            printer.print_number(sink, at);
        }
        Fault::Damaged(place) => {
            printer.print(sink, "DAMAGED ");
            print_place(place, printer, sink);
        }
        Fault::NoBase => printer.print(sink, "NO BASE"),
        Fault::Exists => printer.print(sink, "EXISTS"),
        Fault::Lanes { given, wanted } => {
            printer.print(sink, "LANES ");
            print_pair(given, wanted, printer, sink);
        }
    }
}

// Two numbers with a space between them.
fn print_pair<K: Sink>(first: u64, second: u64, printer: &mut Printer, sink: &mut K)
    ensures { Prints K.Sink printer.old sink.old
        (decimal first ++ (codes " " ++ decimal second)) printer.new sink.new }
{
    printer.print_number(sink, first);
    printer.print(sink, " ");
    printer.print_number(sink, second);
}

fn print_place<K: Sink>(place: Place, printer: &mut Printer, sink: &mut K)
    ensures { Prints K.Sink printer.old sink.old (place_text place) printer.new sink.new }
{
    match place {
        Place::File { file, at } => {
            print_file(file, printer, sink);
            printer.print(sink, " ");
            printer.print_number(sink, at);
        }
        Place::Slot { table, page, slot } => {
            printer.print(sink, "slot ");
            printer.print_number(sink, table);
            printer.print(sink, " ");
            print_pair(u64::from(page), u64::from(slot), printer, sink);
        }
        Place::SameKey { table, key } => {
            printer.print(sink, "key ");
            printer.print_number(sink, table);
            printer.print(sink, " ");
            printer.print_number(sink, key);
        }
    }
}

fn print_file<K: Sink>(file: FileName, printer: &mut Printer, sink: &mut K)
    ensures { Prints K.Sink printer.old sink.old (file_text file) printer.new sink.new }
{
    match file {
        FileName::AreaA => printer.print(sink, "area.a"),
        FileName::AreaB => printer.print(sink, "area.b"),
        FileName::Lane { lane, odd } => {
            printer.print(sink, "lane");
            printer.print_number(sink, lane);
            printer.print(sink, if odd { ".odd" } else { ".even" });
        }
    }
}
