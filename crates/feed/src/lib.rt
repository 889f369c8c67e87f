// A capture into a lent table, block by block: the records of each good block are received in their order, and the bad blocks are counted.
#![tactic(auto)]

ghost use Rattle.std.specs.Prelude.{◌≡◌, ◌*◌, ◌≤◌, ◌<◌, length};
ghost use Rattle.capture.specs.Block.{good, time_of, message_of};
ghost use Rattle.table.specs.Table.{after, received};
ghost use Rattle.feed.specs.Feed.{records_into, block_into, counted, blocks_in, block_at, blocks_into, bad_in, good_records, records_in, fed, fed_block};

use capture::Record;
use refusals::Refusal;

// The record i of a block, received. What the table answers to it is dropped: a refused record leaves what RULES 3.2 says.
fn take_record(table: &mut [u8], block: &[u8], i: usize)
    ensures { table.new ≡ (received table.old (message_of block.now i) (time_of block.now i)).table }
{
    match capture::record_of(block, i) {
        Some(Record { time, start }) => {
            let end = start + 14;
            let _ = table::hear(table, &block[start..end], time);
        }
        None => {}
    }
}

// The first n records of a block.
fn take_records(table: &mut [u8], block: &[u8], n: usize)
    ensures { table.new ≡ records_into table.old block.now n }
{
    for i in 0..n {
        take_record(table, block, i);
    }
}

// All records of a good block, and whether it is good.
fn take_block(table: &mut [u8], block: &[u8]) -> bool
    ensures { (result ≡ good block.now) × (table.new ≡ block_into table.old block.now) }
{
    let Ok(count) = capture::block_of(block) else {
        return false;
    };
    take_records(table, block, count);
    true
}

// The count of bad blocks after one more block. It stops at its highest number, so that a stream without end cannot wrap it.
fn count(bad: u64, good: bool) -> u64
    ensures { result ≡ counted bad good }
{
    if good {
        return bad;
    }
    if bad < 0xffff_ffff_ffff_ffff {
        bad + 1
    } else {
        bad
    }
}

// The block k of a capture; the last may be a part of one. No `chunks`: `bad_in`, `blocks_into` and `records_in` of specs/Feed count the blocks.
fn block_at(capture: &[u8], k: usize) -> &[u8]
    requires { 512 * k < length capture.now }
    ensures { result.now ≡ block_at capture.now k }
{
    let at = 512 * k;
    let left = capture.len() - at;
    if left < 512 {
        return &capture[at..];
    }
    let end = at + 512;
    &capture[at..end]
}

// How many blocks a capture has; a part of one at the end is one too.
fn blocks_in(capture: &[u8]) -> usize
    ensures { result ≡ blocks_in capture.now }
{
    (capture.len() + 511) / 512
}

// All blocks of a capture, and how many are bad.
fn take_blocks(table: &mut [u8], capture: &[u8]) -> u64
    ensures { (result ≡ bad_in capture.now (blocks_in capture.now)) × (table.new ≡ blocks_into table.old capture.now (blocks_in capture.now)) }
{
    let n = blocks_in(capture);
    let mut bad: u64 = 0;
    for k in 0..n {
        bad = count(bad, take_block(table, block_at(capture, k)));
    }
    bad
}

// How many records of a block are received: none of a bad one.
fn block_records(block: &[u8]) -> usize
    ensures { (result ≡ good_records block.now) × (result ≤ 23) }
{
    match capture::block_of(block) {
        Ok(count) => count,
        Err(_) => 0,
    }
}

// How many records the good blocks of a capture have.
pub fn records_in(capture: &[u8]) -> usize
    ensures { result ≡ records_in capture.now (blocks_in capture.now) }
{
    let n = blocks_in(capture);
    let mut records: usize = 0;
    for k in 0..n {
        records += block_records(block_at(capture, k));
    }
    records
}

// A whole capture: how many of its blocks are bad, or 7.
pub fn feed(table: &mut [u8], capture: &[u8]) -> Result<u64, Refusal>
    ensures { after result table.new ≡ fed table.old capture.now }
{
    let Ok(_) = table::clock_of(table) else {
        return Err(Refusal::Places);
    };
    Ok(take_blocks(table, capture))
}

// One block of a capture that comes block by block, with the count of bad blocks so far: that count after it, or 7.
pub fn feed_block(table: &mut [u8], block: &[u8], bad: u64) -> Result<u64, Refusal>
    ensures { after result table.new ≡ fed_block table.old block.now bad }
{
    let Ok(_) = table::clock_of(table) else {
        return Err(Refusal::Places);
    };
    Ok(count(bad, take_block(table, block)))
}
