// Another decoder's listing against ours: yes, or the first line at fault. Ours is what the program `listing` prints of the capture with all tracks asked for.
#![tactic(auto)]

ghost use Rattle.std.specs.Prelude.{◌≡◌, true, ◌≤◌, length};
ghost use Rattle.memory.specs.Offsets.{whole_places};
ghost use Rattle.table.specs.Table.{next_above};
ghost use Rattle.report.specs.Listing.{header_for, rows_in};
ghost use Rattle.report.specs.Code.{key_or_limit};
ghost use Rattle.form.specs.Scan.{lines_from};
ghost use Rattle.compare.specs.Compared.{compared, against as against_of, verdict as verdict_of, checked};

use refusals::Refusal;

// The bytes of a table of 256 places.
const TABLE: usize = memory::HEAD + memory::PLACE * 256;

// The smallest key held above a given one; where there is none, the end of the keys.
fn key_above(table: &[u8], above: u32) -> u32
    ensures { result ≡ key_or_limit (next_above table.now above) }
{
    match table::next(table, above) {
        Ok(Some(key)) => key,
        Ok(None) => keys::END,
        Err(_) => keys::END,
    }
}

// Their lines from a place on, of which the first has the number 2, against our rows: line by line and key by key, with no search.
fn rows_compared(table: &[u8], theirs: &[u8], from: usize) -> Result<Option<u64>, Refusal>
    requires { (whole_places (length table.now) ≡ true) × (from ≤ length theirs.now) }
    ensures { result ≡ compared 2 (lines_from theirs.now from) (rows_in true table.now) }
{
    let mut n: u64 = 2;
    let mut at = from;
    let mut key = key_above(table, 0);
    while key < keys::END {
        let end = form::line_end(theirs, at);
        if end == 0 {
            return Ok(Some(n));
        }
        let row = report::row_in(table, key);
        if !agree::agrees(&theirs[at..end], row) {
            return Ok(Some(n));
        }
        at = end;
        n += 1;
        key = key_above(table, key);
    }
    if form::line_end(theirs, at) == 0 {
        return Ok(None);
    }
    Ok(Some(n))
}

// Their text against the listing of a table: its header, byte for byte, then its rows.
fn against(table: &[u8], bad: u64, theirs: &[u8]) -> Result<Option<u64>, Refusal>
    requires { whole_places (length table.now) ≡ true }
    ensures { result ≡ against_of (lines_from theirs.now 0) (header_for true table.now bad) (rows_in true table.now) }
{
    let end = form::line_end(theirs, 0);
    let ours = report::header_of(table, bad, true)?;
    if !form::same(&theirs[0..end], ours.as_bytes()) {
        return Ok(Some(1));
    }
    rows_compared(table, theirs, end)
}

// Their text against ours, made of the capture in a table of our own, so that nothing is lent.
fn verdict(capture: &[u8], listing: &[u8]) -> Result<Option<u64>, Refusal>
    ensures { result ≡ verdict_of capture.now listing.now }
{
    let mut table = [0u8; TABLE];
    let _ = table::set_up(&mut table);
    let fed = feed::feed(&mut table, capture);
    match fed {
        Ok(bad) => against(&table, bad, listing),
        Err(r) => Err(r),
    }
}

// A capture of at most 2,900 records in good blocks, else 14, and a listing in our form, else 16, made by any program: yes, or the first line at fault.
pub fn check(capture: &[u8], listing: &[u8]) -> Result<Option<u64>, Refusal>
    ensures { result ≡ checked capture.now listing.now }
{
    if 2900 < feed::records_in(capture) {
        return Err(Refusal::Log);
    }
    if !form::in_form(listing) {
        return Err(Refusal::Form);
    }
    verdict(capture, listing)
}
