// The text of a literal.
ghost use Rattle.std.specs.Prelude.{◌≡◌, ◌==◌, ◌≤◌, not, length, IfOk};
ghost use Rattle.std.specs.List.{prefix_len};
ghost use Rattle.sql_parse.specs.Quotes.{unquoted, behind_quote};

use crate::OutOfMemory;
use row_types::Text;
use std::alloc::Global;

// How many bytes stand before the first quote.
fn plain_len(bytes: &[u8]) -> usize
    ensures len { result ≡ prefix_len (λ b. not (b == 39)) bytes.now }
    ensures within { result ≤ length bytes.now }
{
    for (i, byte) in bytes.iter().enumerate() {
        if *byte == b'\'' {
            return i;
        }
    }
    bytes.len()
}

// The text without the quote at its front, where one stands there.
fn behind_quote(text: &str) -> &str
    ensures { result.now ≡ behind_quote text.now }
{
    if !text.is_empty() && text.as_bytes()[0] == b'\'' {
        &text[1..]
    } else {
        text
    }
}

// The text of a literal, each doubled quote in it once.
pub(crate) fn text_of(alloc: Global, raw: &str) -> Result<Text, OutOfMemory>
    ensures { IfOk result (λ text. text ≡ unquoted raw.now) }
{
    let mut text = String::with_capacity(alloc, raw.len())?;
    let mut rest = raw;
    let mut at = plain_len(rest.as_bytes());
    while at < rest.len() {
        let (front, after) = rest.split_at(at + 1);
        text.push_str(front)?;
        rest = behind_quote(after);
        at = plain_len(rest.as_bytes());
    }
    text.push_str(rest)?;
    Ok(Text::from_string(text))
}
