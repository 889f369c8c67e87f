// The words that the program is started with.
ghost use Rattle.std.specs.Prelude.{◌≡◌};
ghost use Rattle.listing.specs.Words.{is_all, asked_by};

use std::env::{Env, FillError};

#[derive(Clone, Copy)]
pub(crate) enum Asked {
    // the tracks with a position
    Positioned,
    All,
    // another word, or more than one
    Unclear,
}

fn is_all(word: &[u8]) -> bool
    ensures { result ≡ is_all word.now }
{
    if word.len() != 3 {
        return false;
    }
    (word[0] == b'a') & (word[1] == b'l') & (word[2] == b'l')
}

// By how many words there are, the program's name the first of them, and the second.
fn asked_by(count: usize, word: &[u8]) -> Asked
    ensures { result ≡ asked_by count word.now }
{
    if count < 2 {
        return Asked::Positioned;
    }
    if (count == 2) & is_all(word) {
        Asked::All
    } else {
        Asked::Unclear
    }
}

// Whether there is a word with this number, be it empty.
fn has_word(env: &impl Env, number: usize) -> bool {
    let mut first = [0u8; 1];
    !matches!(env.arg(number, &mut first), Err(FillError::NotPresent))
}

// How many words there are, the program's name the first of them, whether it is there or not. More than three are three.
fn count_words(env: &impl Env) -> usize {
    if !has_word(env, 1) {
        1
    } else if !has_word(env, 2) {
        2
    } else {
        3
    }
}

// A word that is longer than the room for it counts as an empty one, which is not `all`.
pub(crate) fn read_words(env: &impl Env) -> Asked {
    let count = count_words(env);
    let mut word = [0u8; 3];
    match env.arg(1, &mut word) {
        Ok(n) => asked_by(count, &word[..n]),
        Err(_) => asked_by(count, &[]),
    }
}
