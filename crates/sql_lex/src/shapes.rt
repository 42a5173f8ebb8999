// The token at a place of a text.
ghost use Rattle.std.specs.Prelude.{◌≡◌, ◌+◌, ◌-◌, ◌<◌, ◌≤◌, ◌^◌, min, false, IsTrue, IfSome, length, drop};
ghost use Rattle.std.specs.Prelude.{Some, option_map, slice_index};
ghost use Rattle.std.specs.List.{list_all};
ghost use Rattle.std.specs.Char.{is_ascii_digit, is_ascii_alphabetic};
ghost use Rattle.sql_lex.specs.Spelling.{number_of};
ghost use Rattle.sql_lex.specs.Reading.{closes, sign_of, front, word_front, number_front, literal_front};
ghost use Rattle.sql_lex.specs.Reading.{sign_front};
ghost use Rattle.sql_lex.specs.FoundToken.{seen};

use crate::bytes::{digits_len, is_allowed, word_len};
use crate::keyword::keyword_of;
use crate::token::{Sign, TokenKind};

// A token, and how many bytes it has.
#[derive(Clone, Copy)]
pub(crate) struct FoundToken<'a> {
    pub(crate) kind: TokenKind<'a>,
    pub(crate) len: usize,
}

fn word_at<'a>(text: &'a str, at: usize) -> FoundToken<'a>
    requires inside { at < length text.now }
    requires letter { IsTrue (is_ascii_alphabetic (slice_index text.now at)) }
    ensures { Some (seen result) ≡ word_front (drop at text.now) }
{
    let len = word_len(&text.as_bytes()[at..]);
    let word = &text[at..at + len];
    match keyword_of(word) {
        Some(keyword) => FoundToken {
            kind: TokenKind::Word(keyword),
            len,
        },
        None => FoundToken {
            kind: TokenKind::Name(word),
            len,
        },
    }
}

fn number_of(digits: &[u8]) -> u64
    requires { IsTrue (list_all is_ascii_digit digits.now) }
    ensures { result ≡ min (number_of digits.now) (2 ^ 64 - 1) }
{
    let mut number: u64 = 0;
    for digit in digits {
        number = number
            .saturating_mul(10)
            .saturating_add(u64::from(*digit - b'0'));
    }
    number
}

#[tactic(auto, unfolding(crate::specs::Reading::number_front), using(crate::proofs::Fronts::digits_taken))]
fn number_at<'a>(bytes: &[u8]) -> FoundToken<'a>
    ensures { Some (seen result) ≡ number_front bytes.now }
{
    let len = digits_len(bytes);
    FoundToken {
        kind: TokenKind::Number(number_of(&bytes[..len])),
        len,
    }
}

// How many bytes stand before the quote that closes a literal.
fn closes(bytes: &[u8]) -> Option<usize>
    ensures len { result ≡ closes false bytes.now }
    ensures within { IfSome result (λ n. n < length bytes.now) }
{
    let mut pending = false;
    for (i, byte) in bytes.iter().enumerate() {
        if pending {
            if *byte != b'\'' {
                return Some(i - 1);
            }
            pending = false;
        } else if *byte == b'\'' {
            pending = true;
        } else if !is_allowed(*byte) {
            return None;
        }
    }
    if pending { Some(bytes.len() - 1) } else { None }
}

// The literal whose opening quote stands at `at`.
#[tactic(auto, unfolding(crate::specs::Reading::literal_front))]
fn literal_at<'a>(text: &'a str, at: usize) -> Option<FoundToken<'a>>
    requires inside { at < length text.now }
    requires quote { slice_index text.now at ≡ 39 }
    ensures { option_map seen result ≡ literal_front (drop (at + 1) text.now) }
{
    let len = closes(&text.as_bytes()[at + 1..])?;
    Some(FoundToken {
        kind: TokenKind::Literal(&text[at + 1..at + 1 + len]),
        len: len + 2,
    })
}

// The sign that `byte` begins, where `next` follows it, and its length.
fn sign_of(byte: u8, next: u8) -> Option<(Sign, usize)>
    ensures { result ≡ sign_of byte next }
{
    let found = match (byte, next) {
        (b'(', _) => (Sign::Open, 1),
        (b')', _) => (Sign::Close, 1),
        (b',', _) => (Sign::Comma, 1),
        (b'*', _) => (Sign::Star, 1),
        (b'+', _) => (Sign::Plus, 1),
        (b'-', b'-') => return None,
        (b'-', _) => (Sign::Minus, 1),
        (b'=', _) => (Sign::Equal, 1),
        (b'!', b'=') => (Sign::NotEqual, 2),
        (b'<', b'=') => (Sign::LessEqual, 2),
        (b'<', b'>') => (Sign::NotEqual, 2),
        (b'<', _) => (Sign::Less, 1),
        (b'>', b'=') => (Sign::GreaterEqual, 2),
        (b'>', _) => (Sign::Greater, 1),
        _ => return None,
    };
    Some(found)
}

#[tactic(auto, unfolding(crate::specs::Reading::sign_front))]
fn sign_at<'a>(bytes: &[u8]) -> Option<FoundToken<'a>>
    requires { 0 < length bytes.now }
    ensures { option_map seen result ≡ sign_front bytes.now }
{
    let next = if bytes.len() > 1 { bytes[1] } else { 0 };
    let (sign, len) = sign_of(bytes[0], next)?;
    Some(FoundToken {
        kind: TokenKind::Sign(sign),
        len,
    })
}

// The token at `at`, where one stands there.
pub(crate) fn token_at<'a>(text: &'a str, at: usize) -> Option<FoundToken<'a>>
    requires { at < length text.now }
    ensures token { option_map seen result ≡ front (drop at text.now) }
    ensures within { IfSome result (λ found. (0 < found.len) × (at + found.len ≤ length text.now)) }
{
    let byte = text.as_bytes()[at];
    if byte.is_ascii_alphabetic() {
        Some(word_at(text, at))
    } else if byte.is_ascii_digit() {
        Some(number_at(&text.as_bytes()[at..]))
    } else if byte == b'\'' {
        literal_at(text, at)
    } else {
        sign_at(&text.as_bytes()[at..])
    }
}
