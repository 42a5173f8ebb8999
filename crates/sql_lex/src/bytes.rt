// The classes of bytes, and how far a class reaches.
ghost use Rattle.std.specs.Prelude.{◌≡◌, ◌≤◌, length, drop};
ghost use Rattle.std.specs.List.{prefix_len};
ghost use Rattle.std.specs.Char.{is_ascii_digit};
ghost use Rattle.sql_lex.specs.Spelling.{is_word_byte, is_allowed};
ghost use Rattle.sql_lex.specs.Tokens.{is_blank, opens_comment};
ghost use Rattle.sql_lex.specs.Reading.{from_token};

pub(crate) fn is_word_byte(byte: u8) -> bool
    ensures { result ≡ is_word_byte byte }
{
    byte.is_ascii_alphabetic() || byte.is_ascii_digit() || byte == b'_'
}

pub(crate) fn is_blank(byte: u8) -> bool
    ensures { result ≡ is_blank byte }
{
    byte == b' ' || byte == b'\t' || byte == b'\n' || byte == b'\r'
}

// Control characters aren't allowed in a literal.
pub(crate) fn is_allowed(byte: u8) -> bool
    ensures { result ≡ is_allowed byte }
{
    byte >= 32 && byte < 127 || byte >= 128
}

// How many bytes at the front belong to a word.
pub(crate) fn word_len(bytes: &[u8]) -> usize
    ensures len { result ≡ prefix_len is_word_byte bytes.now }
    ensures within { result ≤ length bytes.now }
{
    for (i, byte) in bytes.iter().enumerate() {
        if !is_word_byte(*byte) {
            return i;
        }
    }
    bytes.len()
}

// How many bytes at the front are digits.
pub(crate) fn digits_len(bytes: &[u8]) -> usize
    ensures len { result ≡ prefix_len is_ascii_digit bytes.now }
    ensures within { result ≤ length bytes.now }
{
    for (i, byte) in bytes.iter().enumerate() {
        if !byte.is_ascii_digit() {
            return i;
        }
    }
    bytes.len()
}

// How many bytes at the front are blanks and comments.
pub(crate) fn gap_len(bytes: &[u8]) -> usize
    ensures left { drop result bytes.now ≡ from_token bytes.now }
    ensures within { result ≤ length bytes.now }
{
    let mut in_comment = false;
    for (i, byte) in bytes.iter().enumerate() {
        if in_comment {
            in_comment = *byte != b'\n';
        } else if opens_comment(&bytes[i..]) {
            in_comment = true;
        } else if !is_blank(*byte) {
            return i;
        }
    }
    bytes.len()
}

fn opens_comment(bytes: &[u8]) -> bool
    ensures { result ≡ opens_comment bytes.now }
{
    bytes.len() > 1 && bytes[0] == b'-' && bytes[1] == b'-'
}
