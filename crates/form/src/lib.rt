// Whether a text is in the form of a listing, whoever made it, and its lines.
#![tactic(auto)]

mod words;

ghost use Rattle.std.specs.Prelude.{◌≡◌, ◌≤◌, length};
ghost use Rattle.form.specs.Form.{same as same_text, in_form};
ghost use Rattle.form.specs.Scan.{lines_from, end_of, NextLine};
ghost use Rattle.form.specs.Code.{Ends};

use words::Sort::{BadBlocks, Clock, Figure, Tracks};
use words::{line_fits, words_fit};

// Whether two texts are equal, byte for byte. It stays beside `==` for its contract, which `compare` and `merge` cite.
pub fn same(a: &[u8], b: &[u8]) -> bool
    ensures { result ≡ same_text a.now b.now }
{
    a == b
}

// Where the piece from a place on ends: at the separator, or at the text's end.
pub(crate) fn piece_end(s: &[u8], from: usize, sep: u8) -> usize
    requires { from ≤ length s.now }
    ensures { Ends sep s.now from result }
{
    for i in from..s.len() {
        if s[i] == sep {
            return i;
        }
    }
    s.len()
}

// The place after the line that starts at a place; 0 where there is none.
pub fn line_end(s: &[u8], at: usize) -> usize
    ensures value { result ≡ end_of at (lines_from s.now at) }
    ensures next_line { NextLine s.now at result }
{
    if s.len() < at {
        return 0;
    }
    let e = piece_end(s, at, b'\n');
    if e < s.len() { e + 1 } else { 0 }
}

// Whether a text is a header's line and then lines of tracks, each with its newline.
pub fn in_form(s: &[u8]) -> bool
    ensures { result ≡ in_form s.now }
{
    let h = piece_end(s, 0, b'\n');
    let header = [Clock, Figure, Tracks, Figure, BadBlocks, Figure];
    if !words_fit(&s[0..h], &header) {
        return false;
    }
    let mut at = h + 1;
    while at < s.len() {
        let e = piece_end(s, at, b'\n');
        if !line_fits(&s[at..e]) {
            return false;
        }
        at = e + 1;
    }
    at == s.len()
}
