// Where a statement ends.
ghost use Rattle.std.specs.Prelude.{◌≡◌, option_map};
ghost use Rattle.sql_lex.specs.Tokens.{opens_comment};
ghost use Rattle.script.specs.Reading.{after_byte, end_of, later, stop_at};
ghost use Rattle.script.specs.declared.scanning.Inside.TheVariants.{Neither};

// How a statement at the front of a text ends.
#[derive(Clone, Copy)]
pub(crate) enum StatementEnd {
    // With the semicolon so many bytes behind the front.
    Semicolon(usize),
    // It doesn't: so many bytes behind the front a line ends in a literal.
    LineEnd(usize),
    // It doesn't: the text ends before.
    TextEnd,
}

// What a byte stands in.
#[derive(Clone, Copy)]
pub(crate) enum Inside {
    Neither,
    Literal,
    Comment,
}

impl Inside {
    // What the byte behind `byte` stands in, where `byte` begins a comment or doesn't.
    fn after(self, byte: u8, opens_comment: bool) -> Inside
        ensures { result ≡ after_byte self byte opens_comment }
    {
        match self {
            Inside::Literal if byte == b'\'' => Inside::Neither,
            Inside::Comment if byte == b'\n' => Inside::Neither,
            Inside::Neither if byte == b'\'' => Inside::Literal,
            Inside::Neither if opens_comment => Inside::Comment,
            same => same,
        }
    }

    // How the statement ends at `byte`, which stands at `at`, where it does.
    fn end_at(self, byte: u8, at: usize) -> Option<StatementEnd>
        ensures { result ≡ option_map (later at) (stop_at self byte) }
    {
        match self {
            Inside::Neither if byte == b';' => Some(StatementEnd::Semicolon(at)),
            Inside::Literal if byte == b'\n' => Some(StatementEnd::LineEnd(at)),
            _ => None,
        }
    }
}

fn opens_comment(bytes: &[u8]) -> bool
    ensures { result ≡ opens_comment bytes.now }
{
    bytes.len() > 1 && bytes[0] == b'-' && bytes[1] == b'-'
}

// How the statement at the front of the text ends.
pub(crate) fn statement_end(text: &[u8]) -> StatementEnd
    ensures { result ≡ end_of Neither text.now }
{
    let mut inside = Inside::Neither;
    for (i, byte) in text.iter().enumerate() {
        if let Some(end) = inside.end_at(*byte, i) {
            return end;
        }
        inside = inside.after(*byte, opens_comment(&text[i..]));
    }
    StatementEnd::TextEnd
}
