// The rows of a SELECT.
ghost use Rattle.std.specs.Prelude.{◌++◌, ◌∷◌, []};
ghost use Rattle.std.specs.List.{flat_map};
ghost use Rattle.sql_lex.specs.Spelling.{doubled};
ghost use Rattle.reply_text.specs.Printed.{Prints};
ghost use Rattle.reply_text.specs.Text.{more_text, row_text, value_text};

use crate::printer::Printer;
use io_edge::Sink;
use row_types::{Items, Row, Value};

// A text, each quote in it twice.
fn print_doubled<K: Sink>(bytes: &[u8], printer: &mut Printer, sink: &mut K)
    ensures { Prints K.Sink printer.old sink.old (doubled bytes.now) printer.new sink.new }
{
    for byte in bytes {
        print_quotable(*byte, printer, sink);
    }
}

// A byte of a text, twice where it is a quote.
fn print_quotable<K: Sink>(byte: u8, printer: &mut Printer, sink: &mut K)
    ensures { Prints K.Sink printer.old sink.old (doubled (byte ∷ [])) printer.new sink.new }
{
    if byte == b'\'' {
        printer.print(sink, "''");
    } else {
        printer.print_byte(sink, byte);
    }
}

fn print_value<K: Sink>(value: &Value, printer: &mut Printer, sink: &mut K)
    ensures { Prints K.Sink printer.old sink.old (value_text value.now) printer.new sink.new }
{
    match value {
        Value::Int(number) => printer.print_number(sink, *number),
        Value::Text(text) => {
            printer.print(sink, "'");
            print_doubled(text.as_str().as_bytes(), printer, sink);
            printer.print(sink, "'");
        }
    }
}

// The values of a row behind the first.
fn print_more<K: Sink>(values: &[Value], printer: &mut Printer, sink: &mut K)
    ensures { Prints K.Sink printer.old sink.old (flat_map more_text values.now) printer.new sink.new }
{
    for value in values {
        printer.print(sink, ", ");
        print_value(value, printer, sink);
    }
}

fn print_row<K: Sink>(row: &Row, printer: &mut Printer, sink: &mut K)
    ensures { Prints K.Sink printer.old sink.old (row_text row.now) printer.new sink.new }
{
    if let [first, rest @ ..] = row.as_slice() {
        print_value(first, printer, sink);
        print_more(rest, printer, sink);
    }
    printer.print(sink, "\n");
}

// The lines of rows, each printed before the next is looked at.
pub(crate) fn print_rows<K: Sink>(rows: &Items<Row>, printer: &mut Printer, sink: &mut K)
    ensures { Prints K.Sink printer.old sink.old (flat_map row_text rows.now) printer.new sink.new }
{
    for row in rows.as_slice() {
        print_row(row, printer, sink);
    }
}
