// Captures: the rules of a block, its records, and a reader that gives one record at a time.
#![tactic(auto)]

ghost use Rattle.std.specs.Prelude.{◌≡◌};
ghost use Rattle.capture.specs.Block.{zeros, block_of, record_of, message_of};
ghost use Rattle.capture.specs.Reader.{begun, after_of, gives, turned, turns};

use refusals::Refusal;

#[derive(Clone, Copy)]
pub struct Record {
    pub time: u64,
    // where the 14 bytes of its message start in the block
    pub start: usize,
}

fn all_zero(s: &[u8]) -> bool
    ensures { result ≡ zeros s.now }
{
    for &x in s {
        if x != 0 {
            return false;
        }
    }
    true
}

// Whether a block keeps its rules, and how many records it has.
pub fn block_of(b: &[u8]) -> Result<usize, Refusal>
    ensures { result ≡ block_of b.now }
{
    if b.len() != 512 {
        return Err(Refusal::Block);
    }
    let count = usize::from(b[0]);
    if count < 1 || 23 < count {
        return Err(Refusal::Block);
    }
    let unused = 3 + 22 * count;
    if all_zero(&b[unused..509]) & (parity_words::remainder_of(b) == 0) {
        Ok(count)
    } else {
        Err(Refusal::Block)
    }
}

// The record i of a block, counted from 0; none past the last.
pub fn record_of(b: &[u8], i: usize) -> Option<Record>
    ensures { result ≡ record_of b.now i }
{
    if b.len() != 512 || usize::from(b[0]) <= i || 23 <= i {
        return None;
    }
    let from = 3 + 22 * i;
    let start = from + 8;
    let time = fields::number_of(&b[from..start]);
    Some(Record { time, start })
}

// The message of the record i; past the end no bytes.
pub fn message_of(b: &[u8], i: usize) -> &[u8]
    ensures { result.now ≡ message_of b.now i }
{
    match record_of(b, i) {
        Some(Record { start, .. }) => &b[start..start + 14],
        None => &[],
    }
}

// A reader of the block that it was lent: it gives one record at a time.
#[derive(Clone, Copy)]
pub struct Reader<'a> {
    block: &'a [u8],
    // the record that it stands at
    at: usize,
}

// A reader before its first turn.
pub fn reader_of<'a>(block: &'a [u8]) -> Reader<'a>
    ensures { result ≡ begun block.entry }
{
    Reader { block, at: 0 }
}

// Where a reader stands after a turn. No block has a record 23, so it may stay there, and the number never runs over.
fn after(i: usize) -> usize
    ensures { result ≡ after_of i }
{
    if i < 23 { i + 1 } else { i }
}

// Gives the record that the reader stands at, and moves on. No `Iterator`: `advance_once` and `advance_promised` name this function.
pub fn advance<'s, 'a>(r: &'s mut Reader<'a>) -> Option<Record>
    ensures { (result ≡ gives r.old) × (r.new ≡ turned r.old) }
{
    let i = r.at;
    r.at = after(i);
    record_of(r.block, i)
}

// What a reader of the block gives after i turns. Who calls this needs no reader of its own; one that is made at i spares the turns.
pub fn nth(block: &[u8], i: usize) -> Option<Record>
    ensures { result ≡ gives (turns i (begun block.entry)) }
{
    let mut r = Reader { block, at: i };
    advance(&mut r)
}
