// The lent table: set-up, a received message, the clock, the site, and the walk of its keys.
ghost use Rattle.std.specs.Prelude.{◌≡◌};
ghost use Rattle.table.specs.Table.{set_up, set_up_at, received, next_above, clock_in, site_in};
ghost use Rattle.entries.specs.Sent.{sent, given, into};
ghost use Rattle.addercoil.specs.Tables.{bytes_for, set_up_sent, received_sent, clock_said, site_values, site_said, next_said};

use crate::done::done_number;
use entries::{bit, give};
use positions::Spot;
use refusals::Refusal;
use whereabouts::Site;

// How many bytes a table of so many places has: lend just as many. 0 if there is no such table.
pub fn addercoil_table_bytes(places: usize) -> usize
    ensures { result ≡ bytes_for places }
{
    if (1 <= places) & (places <= memory::MOST_PLACES) {
        memory::HEAD + memory::PLACE * places
    } else {
        0
    }
}

// Empties the table: no track, no site, clock 0. Or 7.
pub fn addercoil_set_up(table: &mut [u8]) -> u32
    ensures { sent result table.new ≡ set_up_sent (set_up table.old) }
{
    done_number(table::set_up(table))
}

// Empties the table and takes the site. Or 7, then 8.
pub fn addercoil_set_up_at(table: &mut [u8], latitude: i32, longitude: u32) -> u32
    ensures { sent result table.new ≡ set_up_sent (set_up_at table.old (record { latitude = latitude; longitude = longitude })) }
{
    let site = Spot {
        latitude,
        longitude,
    };
    done_number(table::set_up_at(table, site))
}

// A message received at a time. Or 1, 7, 2, 3, 4, 5, then 6 or 12, in that order.
pub fn addercoil_receive(table: &mut [u8], message: &[u8], time: u64) -> u32
    ensures { sent result table.new ≡ received_sent (received table.old message.now time) }
{
    done_number(table::hear(table, message, time))
}

// The clock, into 1 entry. Or 1, then 7.
pub fn addercoil_clock(table: &[u8], out: &mut [u64]) -> u32
    ensures { sent result out.new ≡ into 1 out.old (clock_said (clock_in table.now)) }
{
    if out.len() != 1 {
        return 1;
    }
    match table::clock_of(table) {
        Ok(time) => give(out, &[time]),
        Err(r) => refusals::number(r),
    }
}

fn give_site(out: &mut [u64], site: Site) -> u32
    ensures { sent result out.new ≡ given out.old (site_values site) }
{
    let known = bit(site.known);
    let latitude = entries::twos_of(site.spot.latitude);
    let longitude = site.spot.longitude as u64;
    give(out, &[known, latitude, longitude])
}

// Whether there is a site, its latitude and its longitude, into 3 entries. Or 1, then 7.
pub fn addercoil_site(table: &[u8], out: &mut [u64]) -> u32
    ensures { sent result out.new ≡ into 3 out.old (site_said (site_in table.now)) }
{
    if out.len() != 3 {
        return 1;
    }
    match table::site_of(table) {
        Ok(site) => give_site(out, site),
        Err(r) => refusals::number(r),
    }
}

// The smallest key held above a given one, 0 at the end, into 1 entry. Or 1, then 7.
pub fn addercoil_next(table: &[u8], key: u32, out: &mut [u64]) -> u32
    ensures { sent result out.new ≡ into 1 out.old (next_said (next_above table.now key)) }
{
    if out.len() != 1 {
        return 1;
    }
    match table::next(table, key) {
        Ok(Some(found)) => give(out, &[found as u64]),
        Ok(None) => give(out, &[0]),
        Err(r) => refusals::number(r),
    }
}
