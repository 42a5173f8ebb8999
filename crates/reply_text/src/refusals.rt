// The words and numbers of refusals.
ghost use Rattle.std.specs.Prelude.{◌≡◌, ◌++◌, ◌∷◌, [], pos};
ghost use Rattle.reply_text.specs.Printed.{Prints};
ghost use Rattle.reply_text.specs.Refused.{as_list};
ghost use Rattle.reply_text.specs.Text.{numbers_text, refusal_numbers, refusal_word, resource_numbers};
ghost use Rattle.reply_text.specs.Text.{resource_word};

use crate::printer::Printer;
use io_edge::Sink;
use plain_model::{Refusal, Resource};

// The numbers of a refusal.
#[derive(Clone, Copy)]
pub(crate) enum Numbers<'a> {
    None,
    One(u64),
    Two(u64, u64),
    Key(&'a [i64]),
}

fn resource_word(resource: Resource) -> &'static str
    ensures { result.now ≡ resource_word resource }
{
    match resource {
        Resource::Pages { .. } => "PAGES FULL",
        Resource::Nodes { .. } => "NODES FULL",
        Resource::Txn { .. } => "TXN FULL",
        Resource::Locks { .. } => "LOCKS FULL",
        Resource::LogFull { .. } => "LOG FULL",
        Resource::Busy { .. } => "BUSY",
    }
}

fn resource_numbers<'a>(resource: Resource) -> Numbers<'a>
    ensures { as_list result ≡ resource_numbers resource }
{
    match resource {
        Resource::Pages { used, limit } => Numbers::Two(used, limit),
        Resource::Nodes { used, limit } => Numbers::Two(used, limit),
        Resource::Txn { used, limit } => Numbers::Two(used, limit),
        Resource::Locks { held, limit } => Numbers::Two(held, limit),
        Resource::LogFull { bytes, limit } => Numbers::Two(bytes, limit),
        Resource::Busy { oldest } => Numbers::One(oldest),
    }
}

fn refusal_word(refusal: &Refusal) -> &'static str
    ensures { result.now ≡ refusal_word refusal.now }
{
    match refusal {
        Refusal::Syntax { .. } => "SYNTAX",
        Refusal::InBlock => "IN BLOCK",
        Refusal::NoBlock => "NO BLOCK",
        Refusal::OnlyFirst => "ONLY FIRST",
        Refusal::NoTable => "NO TABLE",
        Refusal::NoColumn => "NO COLUMN",
        Refusal::Kind => "KIND",
        Refusal::Order => "ORDER",
        Refusal::KeyFixed => "KEY FIXED",
        Refusal::Twice => "TWICE",
        Refusal::Count { .. } => "COUNT",
        Refusal::Length { .. } => "LENGTH",
        Refusal::Duplicate { .. } => "DUPLICATE",
        Refusal::Range => "RANGE",
        Refusal::TableExists => "TABLE EXISTS",
        Refusal::Tables { .. } => "TABLES",
        Refusal::Columns { .. } => "COLUMNS",
        Refusal::SameName { .. } => "SAME NAME",
        Refusal::NoKey => "NO KEY",
        Refusal::TooWide { .. } => "TOO WIDE",
        Refusal::Resource(resource) => resource_word(*resource),
        Refusal::Spent { .. } => "SPENT",
    }
}

fn refusal_numbers<'a>(refusal: &'a Refusal) -> Numbers<'a>
    ensures { as_list result ≡ refusal_numbers refusal.now }
{
    match refusal {
        Refusal::Syntax { at } => Numbers::One(*at),
        Refusal::Count { given, wanted } => Numbers::Two(*given, *wanted),
        Refusal::Length { given, limit } => Numbers::Two(*given, *limit),
        Refusal::Duplicate { key } => Numbers::Key(key.as_slice()),
        Refusal::Tables { limit } => Numbers::One(*limit),
        Refusal::Columns { count } => Numbers::One(*count),
        Refusal::SameName { place } => Numbers::One(*place),
        Refusal::TooWide { bytes } => Numbers::One(*bytes),
        Refusal::Resource(resource) => resource_numbers(*resource),
        Refusal::Spent { limit } => Numbers::One(*limit),
        _ => Numbers::None,
    }
}

// A number behind a space.
fn print_one<K: Sink>(number: u64, printer: &mut Printer, sink: &mut K)
    ensures { Prints K.Sink printer.old sink.old (numbers_text (pos number ∷ [])) printer.new sink.new }
{
    printer.print(sink, " ");
    printer.print_number(sink, number);
}

// A number of a key behind a space.
fn print_signed<K: Sink>(number: i64, printer: &mut Printer, sink: &mut K)
    ensures { Prints K.Sink printer.old sink.old (numbers_text (number ∷ [])) printer.new sink.new }
{
    printer.print(sink, " ");
    printer.print_number(sink, number);
}

// The numbers of a key, each behind a space.
fn print_key<K: Sink>(key: &[i64], printer: &mut Printer, sink: &mut K)
    ensures { Prints K.Sink printer.old sink.old (numbers_text key.now) printer.new sink.new }
{
    for number in key {
        print_signed(*number, printer, sink);
    }
}

fn print_numbers<K: Sink>(numbers: Numbers<'_>, printer: &mut Printer, sink: &mut K)
    ensures { Prints K.Sink printer.old sink.old (numbers_text (as_list numbers.entry)) printer.new sink.new }
{
    match numbers {
        Numbers::None => {}
        Numbers::One(number) => print_one(number, printer, sink),
        Numbers::Two(first, second) => {
            print_one(first, printer, sink);
            print_one(second, printer, sink);
        }
        Numbers::Key(key) => print_key(key, printer, sink),
    }
}

// The word of a refusal, and its numbers.
pub(crate) fn print_refusal<K: Sink>(refusal: &Refusal, printer: &mut Printer, sink: &mut K)
    ensures { Prints K.Sink printer.old sink.old
        (refusal_word refusal.now ++ numbers_text (refusal_numbers refusal.now)) printer.new sink.new }
{
    printer.print(sink, refusal_word(refusal));
    print_numbers(refusal_numbers(refusal), printer, sink);
}
