ghost use Rattle.std.specs.Prelude.{◌≡◌};
ghost use Rattle.std.specs.List.{flat_map};
ghost use Rattle.reply_text.specs.Printed.{Prints};
ghost use Rattle.reply_text.specs.Text.{reply_text};
ghost use Rattle.shell.specs.Text.{fault_line, halt_line, section_text};

use crate::status::status_after;
use io_edge::Sink;
use plain_model::Reply;
use reply_text::{Fault, Printer};
use row_types::{Block, Items};
use section_runs::{Halt, SectionRun};

/// How a call ended, and the answers of its sections where they were started.
#[derive(Drop)]
pub(crate) struct Outcome {
    pub(crate) shown: Option<Vec<SectionRun>>,
    pub(crate) fault: Option<Fault>,
}

impl Outcome {
    ghost use Rattle.std.specs.Prelude.{◌≡◌};
    ghost use Rattle.reply_text.specs.Printed.{Prints};
    ghost use Rattle.shell.specs.Outcome.{fault_alone, view_of};
    ghost use Rattle.shell.specs.Shown.{Shows};
    ghost use Rattle.shell.specs.Text.{shown_text};

    /// A call that this fault ended before its sections were started.
    pub(crate) fn alone(fault: Fault) -> Outcome
        ensures { view_of result ≡ fault_alone fault }
    {
        Outcome {
            shown: None,
            fault: Some(fault),
        }
    }

    /// Prints the sections and the last line, and returns the exit status.
    pub(crate) fn print<K: Sink>(&self, sink: &mut K) -> u8
        ensures { Shows K.Sink (view_of self.now) sink.old sink.new result }
    {
        let mut printer = Printer::new();
        self.print_shown(&mut printer, sink);
        print_fault(self.fault, &mut printer, sink);
        let printed = printer.finish(sink);
        status_after(self.fault, printed)
    }

    fn print_shown<K: Sink>(&self, printer: &mut Printer, sink: &mut K)
        ensures { Prints K.Sink printer.old sink.old
            (shown_text (view_of self.now).shown) printer.new sink.new }
    {
        if let Some(runs) = &self.shown {
            print_sections(runs.as_slice(), printer, sink);
        }
    }
}

fn print_fault<K: Sink>(fault: Option<Fault>, printer: &mut Printer, sink: &mut K)
    ensures { Prints K.Sink printer.old sink.old (fault_line fault) printer.new sink.new }
{
    if let Some(fault) = fault {
        printer.last_line(sink, fault);
    }
}

fn print_sections<K: Sink>(runs: &[SectionRun], printer: &mut Printer, sink: &mut K)
    ensures { Prints K.Sink printer.old sink.old (flat_map section_text runs.now) printer.new sink.new }
{
    for run in runs {
        print_section(run, printer, sink);
    }
}

fn print_section<K: Sink>(run: &SectionRun, printer: &mut Printer, sink: &mut K)
    ensures { Prints K.Sink printer.old sink.old (section_text run.now) printer.new sink.new }
{
    printer.header(sink, run.section.number);
    print_replies(run.section.leads.as_slice(), printer, sink);
    print_blocks(run.said.as_slice(), printer, sink);
    print_left(run.left(), run.halt, printer, sink);
}

fn print_replies<K: Sink>(replies: &[Reply], printer: &mut Printer, sink: &mut K)
    ensures { Prints K.Sink printer.old sink.old (flat_map reply_text replies.now) printer.new sink.new }
{
    for reply in replies {
        printer.reply(sink, reply);
    }
}

/// Prints the replies to blocks.
fn print_blocks<K: Sink>(blocks: &[Items<Reply>], printer: &mut Printer, sink: &mut K)
    ensures { Prints K.Sink printer.old sink.old
        (flat_map (flat_map reply_text) blocks.now) printer.new sink.new }
{
    for replies in blocks {
        print_replies(replies.as_slice(), printer, sink);
    }
}

/// Prints a line for each block that has no replies.
fn print_left<K: Sink>(left: &[Block], halt: Halt, printer: &mut Printer, sink: &mut K)
    ensures { Prints K.Sink printer.old sink.old
        (flat_map (λ _. halt_line halt) left.now) printer.new sink.new }
{
    for _block in left {
        print_halt(halt, printer, sink);
    }
}

fn print_halt<K: Sink>(halt: Halt, printer: &mut Printer, sink: &mut K)
    ensures { Prints K.Sink printer.old sink.old (halt_line halt) printer.new sink.new }
{
    match halt {
        Halt::Done => {}
        Halt::Stopped => printer.stopped(sink),
        Halt::OutOfMemory => printer.stopped_for_memory(sink),
    }
}
