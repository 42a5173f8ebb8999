// The words behind the program's name.
use std::env::Env;

/// As long as a word that counts can be.
const LONGEST: usize = 20;

/// Whether a word is this text.
pub(crate) fn is_word(rt: &HostRuntime, word: usize, text: &str) -> bool {
    let mut room = [0; LONGEST];
    match rt.arg(word, &mut room) {
        Ok(len) => &room[..len] == text.as_bytes(),
        Err(_) => false,
    }
}

/// The number that a word says, or 0.
pub(crate) fn number(rt: &HostRuntime, word: usize) -> u64 {
    let mut room = [0; LONGEST];
    match rt.arg(word, &mut room) {
        Ok(len) => str::from_utf8(&room[..len])
            .ok()
            .and_then(|text| text.parse::<u64>().ok())
            .unwrap_or(0),
        Err(_) => 0,
    }
}
