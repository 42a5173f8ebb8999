// The lines of replies, and of what stands in place of them.
ghost use Rattle.std.specs.Prelude.{◌++◌, codes};
ghost use Rattle.std.specs.Fmt.{decimal};
ghost use Rattle.reply_text.specs.Printed.{EndsPrinted, Prints};
ghost use Rattle.reply_text.specs.Text.{header_line, reply_text, table_line};

use crate::printer::Printer;
use crate::refusals::print_refusal;
use crate::rows::print_rows;
use io_edge::{Failed, Sink};
use plain_model::Reply;
use row_types::Name;

impl Printer {
    /// Prints the lines of a reply.
    pub fn reply<K: Sink>(&mut self, sink: &mut K, reply: &Reply)
        ensures { Prints K.Sink self.old sink.old (reply_text reply.now) self.new sink.new }
    {
        match reply {
            Reply::Done => self.print(sink, "ok\n"),
            Reply::Many(count) => print_count("ok ", *count, self, sink),
            Reply::Opened(generation) => print_count("ok ", *generation, self, sink),
            Reply::Rows(rows) => {
                print_rows(rows, self, sink);
                print_count("rows ", rows.len() as u64, self, sink);
            }
            Reply::Refused(refusal) => {
                self.print(sink, "refused ");
                print_refusal(refusal, self, sink);
                self.print(sink, "\n");
            }
        }
    }

    /// Prints the header of a section: the setup's, or that of the session with this number.
    pub fn header<K: Sink>(&mut self, sink: &mut K, session: Option<u64>)
        ensures { Prints K.Sink self.old sink.old (header_line session) self.new sink.new }
    {
        match session {
            None => self.print(sink, "setup\n"),
            Some(number) => print_count("session ", number, self, sink),
        }
    }

    /// Prints the line above the rows of a table with this name.
    pub fn table<K: Sink>(&mut self, sink: &mut K, name: &Name)
        ensures { Prints K.Sink self.old sink.old (table_line name.now) self.new sink.new }
    {
        self.print(sink, "table ");
        self.print(sink, name.as_str());
        self.print(sink, "\n");
    }

    /// Prints the line of a block that a fault of a disk stopped, or that came after it.
    pub fn stopped<K: Sink>(&mut self, sink: &mut K)
        ensures { Prints K.Sink self.old sink.old (codes "stopped\n") self.new sink.new }
    {
        self.print(sink, "stopped\n");
    }

    /// Prints the line of a block that found no memory, or that came after it.
    pub fn stopped_for_memory<K: Sink>(&mut self, sink: &mut K)
        ensures { Prints K.Sink self.old sink.old (codes "stopped MEMORY\n") self.new sink.new }
    {
        self.print(sink, "stopped MEMORY\n");
    }
}

// A line of a word and a number.
fn print_count<K: Sink>(word: &str, number: u64, printer: &mut Printer, sink: &mut K)
    ensures { Prints K.Sink printer.old sink.old
        (word.now ++ (decimal number ++ codes "\n")) printer.new sink.new }
{
    printer.print(sink, word);
    printer.print_number(sink, number);
    printer.print(sink, "\n");
}

/// Brings the lines of `reply` to the sink: it took them all, or one push failed, the last, and it took a
/// front of them.
pub fn reply_into<K: Sink>(sink: &mut K, reply: &Reply) -> Result<(), Failed>
    ensures { EndsPrinted (K.taken sink.old) (K.faults sink.old)
        (reply_text reply.now) result (K.taken sink.new) (K.faults sink.new) }
{
    let mut printer = Printer::new();
    printer.reply(sink, reply);
    printer.finish(sink)
}
