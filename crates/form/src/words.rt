// The words of a line, and what each has to be.
ghost use Rattle.std.specs.Prelude.{◌≡◌};
ghost use Rattle.std.specs.List.{list_all};
ghost use Rattle.form.specs.Form.{pieces, is_digit, is_hex_digit, is_positive, is_negative, is_figure, is_kind, is_coarse, is_address, fits, all_fit, line_form};
ghost use Rattle.form.specs.Code.{sort_of, sorts_of};

use crate::{piece_end, same};

// What a word of a line can be.
#[derive(Clone, Copy)]
pub(crate) enum Sort {
    // I, O, T, M or N
    Kind,
    // C, whose keys have two columns more
    Coarse,
    Address,
    Figure,
    // the header's words
    Clock,
    Tracks,
    BadBlocks,
}

use Sort::{Address, Coarse, Figure, Kind};

fn all_digits(w: &[u8]) -> bool
    ensures { result ≡ list_all is_digit w.now }
{
    for &b in w {
        if !b.is_ascii_digit() {
            return false;
        }
    }
    true
}

fn all_hex_digits(w: &[u8]) -> bool
    ensures { result ≡ list_all is_hex_digit w.now }
{
    for &b in w {
        if !(b.is_ascii_digit() | ((65 <= b) & (b <= 70))) {
            return false;
        }
    }
    true
}

fn is_positive(w: &[u8]) -> bool
    ensures { result ≡ is_positive w.now }
{
    let n = w.len();
    if n < 1 {
        return false;
    }
    (n <= 20) & all_digits(w) & (w[0] != 48)
}

fn is_negative(w: &[u8]) -> bool
    ensures { result ≡ is_negative w.now }
{
    if w.len() < 1 {
        return false;
    }
    (w[0] == 45) & is_positive(&w[1..])
}

fn is_figure(w: &[u8]) -> bool
    ensures { result ≡ is_figure w.now }
{
    same(w, b"-") | same(w, b"0") | is_positive(w) | is_negative(w)
}

fn is_kind(w: &[u8]) -> bool
    ensures { result ≡ is_kind w.now }
{
    same(w, b"I") | same(w, b"O") | same(w, b"T") | same(w, b"M") | same(w, b"N")
}

fn is_coarse(w: &[u8]) -> bool
    ensures { result ≡ is_coarse w.now }
{
    same(w, b"C")
}

fn is_address(w: &[u8]) -> bool
    ensures { result ≡ is_address w.now }
{
    (w.len() == 6) & all_hex_digits(w)
}

fn word_fits(sort: Sort, w: &[u8]) -> bool
    ensures { result ≡ fits (sort_of sort) w.now }
{
    match sort {
        Sort::Kind => is_kind(w),
        Sort::Coarse => is_coarse(w),
        Sort::Address => is_address(w),
        Sort::Figure => is_figure(w),
        Sort::Clock => same(w, b"clock"),
        Sort::Tracks => same(w, b"tracks"),
        Sort::BadBlocks => same(w, b"bad-blocks"),
    }
}

// As many words as sorts, with a space between each two, and each of its sort.
pub(crate) fn words_fit(line: &[u8], sorts: &[Sort]) -> bool
    ensures { result ≡ all_fit (sorts_of sorts.now) (pieces 32 line.now) }
{
    let mut at: usize = 0;
    let mut i: usize = 0;
    while i < sorts.len() {
        if line.len() < at {
            return false;
        }
        let e = piece_end(line, at, b' ');
        if !word_fits(sorts[i], &line[at..e]) {
            return false;
        }
        at = e + 1;
        i += 1;
    }
    line.len() < at
}

// A line of a track: of kind C it has two columns more.
pub(crate) fn line_fits(line: &[u8]) -> bool
    ensures { result ≡ line_form line.now }
{
    let others = [Kind, Address, Figure, Figure, Figure, Figure, Figure];
    let coarse = [
        Coarse, Address, Figure, Figure, Figure, Figure, Figure, Figure, Figure,
    ];
    words_fit(line, &others) | words_fit(line, &coarse)
}
