// One aircraft's track worked out again from a log of what was received. The plain method: the records in order, the clock and this aircraft's track by value, and no table.
#![tactic(auto)]

ghost use Rattle.std.specs.Prelude.{◌≡◌, true, eqb, length, take, ◌%◌, ◌/◌, ◌^◌};
ghost use Rattle.fields.specs.Bytes.{number};
ghost use Rattle.keys.specs.Keys.{address_in};
ghost use Rattle.messages.specs.Accepted.{IsAccepted, opened_as};
ghost use Rattle.track.specs.Held.{later_at};
ghost use Rattle.replay.specs.Alone.{own_in, heard_in, told_of, own_after};
ghost use Rattle.replay.specs.Replay.{is_log, heard_at, unheard, own_at, sited, is_wide, bad_site, replayed};
ghost use Rattle.replay.specs.Code.{begun};

use keys::Kind;
use messages::Frame;
use refusals::Refusal;
use track::Track;
use whereabouts::Site;

// What is kept between two records: the clock, and the aircraft's track where it is held.
#[derive(Clone, Copy)]
pub struct Own {
    pub clock: u64,
    pub track: Option<Track>,
}

// Whether a log may have so many bytes: at most 2,900 records of 22.
pub fn is_log(bytes: usize) -> bool
    ensures { result ≡ is_log bytes }
{
    (bytes % 22 == 0) & (bytes / 22 <= 2900)
}

// Whether AA is that of the key. Most records are a stranger's: it is asked before the parity, which costs more than all else.
fn may_be_own(message: &[u8], key: u32) -> bool
    requires { length message.now ≡ 14 }
    ensures { result ≡ eqb (number (take 4 message.now) % 2 ^ 64 % 2 ^ 24) (address_in key) }
{
    fields::number_of(&message[0..4]) % 0x100_0000 == u64::from(keys::address_in(key))
}

// The track that a message of the aircraft steps: its own, or a new one if it starts one.
fn begun(starts: bool, held: Option<Track>) -> Option<Track>
    ensures { result ≡ begun starts held }
{
    if starts {
        Some(held.unwrap_or(track::new_track()))
    } else {
        held
    }
}

// An acceptable message, where the clock is already at its time. One that starts no track does nothing where none is held.
fn tell(own: Own, key: u32, f: Frame, site: Site) -> Own
    requires { IsAccepted f }
    ensures { result ≡ record { clock = own.clock; track = told_of site own.clock (own_in key (opened_as (Ok f))) own.track } }
{
    if messages::frame_key(f) != key {
        return own;
    }
    let Some(t) = begun(messages::frame_starts(f), own.track) else {
        return own;
    };
    let coarse = messages::frame_coarse(f);
    Own {
        track: Some(track::step_me(t, coarse, f.me, site, own.clock)),
        ..own
    }
}

// A track that is too old by then goes.
fn age(held: &mut Option<Track>, time: u64)
    ensures { held.new ≡ later_at time held.old }
{
    if let Some(t) = held {
        if !track::is_in_date(time, t.heard) {
            *held = None;
        }
    }
}

// A message that comes at a time. The clock takes it, whatever the message is, and an old track goes. Most records are strangers', so that nothing is copied for one.
fn hear(own: &mut Own, key: u32, message: &[u8], time: u64, site: Site)
    requires { length message.now ≡ 14 }
    ensures { own.new ≡ own_after site own.old (heard_in key message.now time) }
{
    if time < own.clock {
        return;
    }
    own.clock = time;
    age(&mut own.track, time);
    if !may_be_own(message, key) {
        return;
    }
    match messages::accept(message) {
        Ok(f) => *own = tell(*own, key, f, site),
        Err(_) => {}
    }
}

// A record of the log: 8 bytes of time, then the message.
fn hear_record(own: &mut Own, key: u32, bytes: &[u8], site: Site)
    requires { length bytes.now ≡ 22 }
    ensures { own.new ≡ own_after site own.old (heard_at key bytes.now) }
{
    let time = fields::number_of(&bytes[0..8]);
    hear(own, key, &bytes[8..22], time, site);
}

// All records of a log, in order, from clock 0 with nobody held.
fn hear_all(log: &[u8], key: u32, site: Site) -> Own
    ensures { result ≡ own_at site key unheard log.now (length log.now / 22) }
{
    let mut own = Own {
        clock: 0,
        track: None,
    };
    for record in log.chunks_exact(22) {
        hear_record(&mut own, key, record, site);
    }
    own
}

// Whether a kind has a flag or a station that is wider than its bits.
fn is_wide(kind: Kind) -> bool
    ensures { result ≡ is_wide kind }
{
    matches!(kind, Kind::C(flag, station) if (2 <= flag) | (16 <= station))
}

fn bad_site(site: Site) -> bool
    ensures { result ≡ bad_site site }
{
    site.known & !whereabouts::pole_to_pole(site.spot)
}

fn site_of(site: Site) -> Site
    ensures { result ≡ sited site }
{
    if site.known {
        site
    } else {
        whereabouts::no_site()
    }
}

// The track of a kind and an address after the records of a log, from a set-up with a site. Or 14, then 8.
pub fn replay(log: &[u8], kind: Kind, address: u32, site: Site) -> Result<Option<Track>, Refusal>
    ensures { result ≡ replayed log.now kind address site }
{
    if !is_log(log.len()) {
        return Err(Refusal::Log);
    }
    if (0x100_0000 <= address) | is_wide(kind) | bad_site(site) {
        return Err(Refusal::Field);
    }
    let own = hear_all(log, keys::key_for(kind, address), site_of(site));
    Ok(own.track)
}
