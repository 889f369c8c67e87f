// The lent table: 1 to 1,024 places in bytes that the caller lends, laid out as `memory` says.
#![tactic(auto)]

ghost use Rattle.std.specs.Prelude.{◌≡◌, ◌<◌, true, cond, length};
ghost use Rattle.memory.specs.Offsets.{Room, whole_places};
ghost use Rattle.messages.specs.Accepted.{IsAccepted, frame_coarse, opened_as};
ghost use Rattle.track.specs.Track.{new_track, step_me};
ghost use Rattle.place.specs.Place.{track_of};
ghost use Rattle.table_bytes.specs.Layout.{site_of, body_at, stored};
ghost use Rattle.table.specs.Heard.{heard};
ghost use Rattle.table.specs.Table.{after, received, set_up, set_up_at, looked_up, next_above, clock_in, site_in};
ghost use Rattle.table.specs.Code.{delivered};

use messages::{Frame, Message};
use positions::Spot;
use refusals::Refusal;
use table_bytes::Target;
use track::Track;
use whereabouts::Site;

// Empties the table: no track, no site, clock 0.
pub fn set_up(table: &mut [u8]) -> Result<(), Refusal>
    ensures { after result table.new ≡ set_up table.old }
{
    if !table_bytes::whole_places(table.len()) {
        return Err(Refusal::Places);
    }
    table_bytes::clear(table);
    Ok(())
}

// Empties the table and takes the site.
pub fn set_up_at(table: &mut [u8], site: Spot) -> Result<(), Refusal>
    ensures { after result table.new ≡ set_up_at table.old site }
{
    if !table_bytes::whole_places(table.len()) {
        return Err(Refusal::Places);
    }
    if !whereabouts::pole_to_pole(site) {
        return Err(Refusal::Field);
    }
    table_bytes::clear(table);
    table_bytes::put_site(table, site);
    Ok(())
}

// The track that a message steps: the target's, or a new one.
fn start_of(table: &[u8], n: usize, target: Target) -> Track
    requires { (target.at < n) × Room n table.now }
    ensures { result ≡ cond target.held (track_of (body_at table.now n target.at)) new_track }
{
    if target.held {
        place::load(table_bytes::body(table, n, target.at))
    } else {
        track::new_track()
    }
}

// The step of a track by a frame, stored at the place i.
fn step_at(table: &mut [u8], n: usize, i: usize, key: u32, t: Track, f: Frame, time: u64)
    requires { (i < n) × Room n table.old }
    ensures { table.new ≡ stored table.old n i key (step_me t (frame_coarse f) f.me (site_of table.old) time) }
{
    let site = table_bytes::site_of(table);
    let coarse = messages::frame_coarse(f);
    table_bytes::store(
        table,
        n,
        i,
        key,
        track::step_me(t, coarse, f.me, site, time),
    );
}

// An acceptable message reaches the table. The clock is already at the time. A free place is only for one that may start a track.
fn deliver(table: &mut [u8], f: Frame, time: u64) -> Result<(), Refusal>
    requires { (whole_places (length table.old) ≡ true) × IsAccepted f }
    ensures { after result table.new ≡ heard (delivered table.old (opened_as (Ok f)) time) }
{
    let key = messages::frame_key(f);
    let n = table_bytes::places_in(table);
    let starts = messages::frame_starts(f);
    let target = table_bytes::target_of(table, n, time, key);
    // tested here and not in the search, where it would cost every message more
    if (target.held | starts) & (target.at < n) {
        let t = start_of(table, n, target);
        step_at(table, n, target.at, key, t, f, time);
        return Ok(());
    }
    Err(rules::turned_away(starts))
}

// What a message received at a time does to the table: done, or the number that it earns.
pub fn hear(table: &mut [u8], message: &[u8], time: u64) -> Result<(), Refusal>
    ensures { after result table.new ≡ heard (received table.old message.now time) }
{
    if message.len() != 14 {
        return Err(Refusal::Length);
    }
    if !table_bytes::whole_places(table.len()) {
        return Err(Refusal::Places);
    }
    if time < table_bytes::clock_of(table) {
        return Err(Refusal::Late);
    }
    table_bytes::move_clock(table, time);
    let f = messages::accept(message)?;
    deliver(table, f, time)
}

// The same, with the decoded message as the answer.
pub fn receive(table: &mut [u8], message: &[u8], time: u64) -> Result<Message, Refusal>
    ensures { after result table.new ≡ received table.old message.now time }
{
    hear(table, message, time)?;
    messages::decode(message)
}

// The track of a key.
pub fn look_up(table: &[u8], key: u32) -> Result<Option<Track>, Refusal>
    ensures { result ≡ looked_up table.now key }
{
    if !table_bytes::whole_places(table.len()) {
        return Err(Refusal::Places);
    }
    let n = table_bytes::places_in(table);
    let i = table_bytes::find_key(table, n, table_bytes::clock_of(table), key);
    if i < n {
        Ok(Some(place::load(table_bytes::body(table, n, i))))
    } else {
        Ok(None)
    }
}

// The smallest key held above a given one: from 0 on, this walks the table in the order of its keys.
pub fn next(table: &[u8], above: u32) -> Result<Option<u32>, Refusal>
    ensures { result ≡ next_above table.now above }
{
    if !table_bytes::whole_places(table.len()) {
        return Err(Refusal::Places);
    }
    let n = table_bytes::places_in(table);
    let clock = table_bytes::clock_of(table);
    Ok(rules::key_or_end(table_bytes::smallest_above(table, n, clock, above)))
}

pub fn clock_of(table: &[u8]) -> Result<u64, Refusal>
    ensures { result ≡ clock_in table.now }
{
    if table_bytes::whole_places(table.len()) {
        Ok(table_bytes::clock_of(table))
    } else {
        Err(Refusal::Places)
    }
}

pub fn site_of(table: &[u8]) -> Result<Site, Refusal>
    ensures { result ≡ site_in table.now }
{
    if table_bytes::whole_places(table.len()) {
        Ok(table_bytes::site_of(table))
    } else {
        Err(Refusal::Places)
    }
}
