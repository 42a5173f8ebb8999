// Lines, and the headers among them.
ghost use Rattle.std.specs.Prelude.{◌≡◌, ◌≢◌, ℕ, ◌+◌, ◌-◌, ◌<◌, ◌≤◌, List, ◌∷◌, length, take, drop};
ghost use Rattle.std.specs.Prelude.{option_map, slice_index, IsTrue, ◌↔◌, Some};
ghost use Rattle.std.specs.Char.{is_ascii_digit};
ghost use Rattle.std.specs.Fmt.{decimal};
ghost use Rattle.std.specs.List.{list_all};
ghost use Rattle.sql_lex.specs.Tokens.{is_blank};
ghost use Rattle.script.specs.Lines.{Session, Setup, is_number, lines, trimmed, header_of, line_header};
ghost use Rattle.script.specs.Lines.{parts_of};
ghost use Rattle.script.specs.Script.{IsFirstUnblank};
ghost use Rattle.script.specs.Headers.{BeginsSection, StartsSection, behind, first_header, seen};

use itoa::Buffer;

// The header that a line is; the digits are those of a session's number.
#[derive(Clone, Copy)]
enum HeaderLine<'a> {
    Setup,
    Session(&'a [u8]),
}

fn is_blank(byte: u8) -> bool
    ensures { result ≡ is_blank byte }
{
    byte == b' ' || byte == b'\t' || byte == b'\n' || byte == b'\r'
}

// The place of the first byte that isn't blank.
pub(crate) fn first_unblank(bytes: &[u8]) -> Option<usize>
    ensures { IsFirstUnblank bytes.now result }
{
    for (i, byte) in bytes.iter().enumerate() {
        if !is_blank(*byte) {
            return Some(i);
        }
    }
    None
}

// How many bytes the first line has, with the line feed that ends it.
pub(crate) fn line_len(bytes: &[u8]) -> usize
    ensures line { 0 < length bytes.now
        → lines bytes.now ≡ take result bytes.now ∷ lines (drop result bytes.now) }
    ensures some { 0 < length bytes.now → 0 < result }
    ensures within { result ≤ length bytes.now }
    ensures ended { result < length bytes.now → slice_index bytes.now (result - 1) ≡ 10 }
{
    for (i, byte) in bytes.iter().enumerate() {
        if *byte == b'\n' {
            return i + 1;
        }
    }
    bytes.len()
}

// How many bytes of a line stand before the blanks and the line feed at its end.
fn trimmed_len(line: &[u8]) -> usize
    ensures trimmed { take result line.now ≡ trimmed line.now }
    ensures within { result ≤ length line.now }
{
    let mut len = line.len();
    while len > 0 && is_blank(line[len - 1]) {
        len -= 1;
    }
    len
}

fn are_digits(bytes: &[u8]) -> bool
    ensures { result ≡ list_all is_ascii_digit bytes.now }
{
    for byte in bytes {
        if !byte.is_ascii_digit() {
            return false;
        }
    }
    true
}

// Whether the bytes are digits, of which the first is a zero only where it is all.
fn is_number(digits: &[u8]) -> bool
    ensures { result ≡ is_number digits.now }
{
    !digits.is_empty() && are_digits(digits) && (digits[0] != b'0' || digits.len() == 1)
}

// The header that a trimmed line is.
#[tactic(auto, unfolding(crate::specs::Lines::header_of))]
fn header_of<'a>(line: &'a [u8]) -> Option<HeaderLine<'a>>
    ensures { option_map seen result ≡ header_of line.now }
{
    if line == b"setup".as_slice() {
        return Some(HeaderLine::Setup);
    }
    if line.len() < 8 {
        return None;
    }
    let (word, digits) = line.split_at(8);
    if word == b"session ".as_slice() && is_number(digits) {
        Some(HeaderLine::Session(digits))
    } else {
        None
    }
}

// The header that the first line is.
fn first_header<'a>(bytes: &'a [u8]) -> Option<HeaderLine<'a>>
    ensures { option_map seen result ≡ first_header (lines bytes.now) }
{
    let line = &bytes[..line_len(bytes)];
    header_of(&line[..trimmed_len(line)])
}

// Whether the first line is the header of the setup.
pub(crate) fn begins_setup(bytes: &[u8]) -> bool
    ensures { IsTrue result ↔ BeginsSection (lines bytes.now) Setup }
{
    match first_header(bytes) {
        Some(HeaderLine::Setup) => true,
        _ => false,
    }
}

// Whether the first line is the header of this session.
pub(crate) fn begins_session(bytes: &[u8], number: usize) -> bool
    ensures { IsTrue result ↔ BeginsSection (lines bytes.now) (Session (decimal number)) }
{
    match first_header(bytes) {
        Some(HeaderLine::Session(digits)) => { digits == Buffer::new().format(number).as_bytes() }
        _ => false,
    }
}

// How many bytes stand before the first header.
pub(crate) fn front_len(bytes: &[u8]) -> usize
    ensures parts { (at : ℕ)
        → parts_of at (lines bytes.now) ≡ behind (take result bytes.now)
        (parts_of (at + result) (lines (drop result bytes.now))) }
    ensures header { StartsSection (lines (drop result bytes.now)) }
    ensures within { result ≤ length bytes.now }
    ensures ended { 0 < result → result < length bytes.now → slice_index bytes.now (result - 1) ≡ 10 }
{
    let mut at = 0;
    while at < bytes.len() && first_header(&bytes[at..]).is_none() {
        at += line_len(&bytes[at..]);
    }
    at
}
