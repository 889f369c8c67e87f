// Addercoil for C, over the library `audit`: each function calls that library's function of its name, under the same clauses. Only a static library exports, and it is an object of its own in the archive.
#![tactic(auto)]

ghost use Rattle.std.specs.Prelude.{◌≡◌};
ghost use Rattle.audit.specs.Replays.{coarse_said, replay_said};
ghost use Rattle.entries.specs.Sent.{into, sent};
ghost use Rattle.track_rows.specs.Tracks.{track_size};
ghost use Rattle.whereabouts.specs.Located.{no_site, site_at};

#[unsafe(no_mangle)]
pub extern "C" fn addercoil_replay(log: &[u8], kind: u32, address: u32, out: &mut [u64]) -> u32
    ensures { sent result out.new ≡ into track_size out.old (replay_said log.now kind address no_site) }
{
    audit::replays::addercoil_replay(log, kind, address, out)
}

#[unsafe(no_mangle)]
pub extern "C" fn addercoil_replay_at(
    log: &[u8],
    kind: u32,
    address: u32,
    latitude: i32,
    longitude: u32,
    out: &mut [u64],
) -> u32
    ensures { sent result out.new ≡ into track_size out.old (replay_said log.now kind address (site_at (record { latitude = latitude; longitude = longitude }))) }
{
    audit::replays::addercoil_replay_at(log, kind, address, latitude, longitude, out)
}

#[unsafe(no_mangle)]
pub extern "C" fn addercoil_replay_coarse(
    log: &[u8],
    address: u32,
    flag: u32,
    station: u32,
    out: &mut [u64],
) -> u32
    ensures { sent result out.new ≡ into track_size out.old (coarse_said log.now address flag station) }
{
    audit::replays::addercoil_replay_coarse(log, address, flag, station, out)
}
