// A track worked out again from a log: its kind comes as a number, or as a flag and a station, and its row is that of a track that a table holds.
ghost use Rattle.std.specs.Prelude.{◌≡◌};
ghost use Rattle.whereabouts.specs.Located.{no_site, site_at};
ghost use Rattle.entries.specs.Sent.{sent, given, into};
ghost use Rattle.track_rows.specs.Tracks.{track_size};
ghost use Rattle.audit.specs.Replays.{worked_out, replay_said, coarse_said};

use keys::Kind;
use positions::Spot;
use whereabouts::Site;

fn give_of(out: &mut [u64], log: &[u8], kind: Kind, address: u32, site: Site) -> u32
    ensures { sent result out.new ≡ given out.old (worked_out log.now kind address site) }
{
    let looked = replay::replay(log, kind, address, site);
    track_rows::give_held(out, keys::key_for(kind, address), looked)
}

fn give_replay(out: &mut [u64], log: &[u8], kind: u32, address: u32, site: Site) -> u32
    ensures { sent result out.new ≡ given out.old (replay_said log.now kind address site) }
{
    if !replay::is_log(log.len()) {
        return 14;
    }
    if !keys::is_kind(kind) {
        return 8;
    }
    give_of(out, log, keys::kind_at(kind), address, site)
}

fn give_coarse(out: &mut [u64], log: &[u8], address: u32, flag: u32, station: u32) -> u32
    ensures { sent result out.new ≡ given out.old (coarse_said log.now address flag station) }
{
    if !replay::is_log(log.len()) {
        return 14;
    }
    if (2 <= flag) | (16 <= station) {
        return 8;
    }
    let kind = Kind::C(flag as u8, station as u8);
    give_of(out, log, kind, address, whereabouts::no_site())
}

// The track of a kind and an address after the records of a log, zeros if it is not held, into 72 entries. Or 1, then 14, then 8.
pub fn addercoil_replay(log: &[u8], kind: u32, address: u32, out: &mut [u64]) -> u32
    ensures { sent result out.new ≡ into track_size out.old (replay_said log.now kind address no_site) }
{
    if out.len() != track_rows::TRACK {
        return 1;
    }
    give_replay(out, log, kind, address, whereabouts::no_site())
}

// The same from a set-up with a site. Or 1, then 14, then 8.
pub fn addercoil_replay_at(
    log: &[u8],
    kind: u32,
    address: u32,
    latitude: i32,
    longitude: u32,
    out: &mut [u64],
) -> u32
    ensures { sent result out.new ≡ into track_size out.old (replay_said log.now kind address (site_at (record { latitude = latitude; longitude = longitude }))) }
{
    if out.len() != track_rows::TRACK {
        return 1;
    }
    let site = Site {
        known: true,
        spot: Spot {
            latitude,
            longitude,
        },
    };
    give_replay(out, log, kind, address, site)
}

// The same of kind C, with a flag and a station, into 72 entries. Or 1, then 14, then 8.
pub fn addercoil_replay_coarse(
    log: &[u8],
    address: u32,
    flag: u32,
    station: u32,
    out: &mut [u64],
) -> u32
    ensures { sent result out.new ≡ into track_size out.old (coarse_said log.now address flag station) }
{
    if out.len() != track_rows::TRACK {
        return 1;
    }
    give_coarse(out, log, address, flag, station)
}
