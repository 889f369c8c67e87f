// Addercoil for C, over the library `addercoil`: each function calls that library's function of its name, under the same clauses. Only a static library exports, and it is an object of its own in the archive.
#![tactic(auto)]

ghost use Rattle.std.specs.Prelude.{◌≡◌, cond, eqb, length, not};
ghost use Rattle.addercoil.specs.Blocks.{both, fed_into};
ghost use Rattle.addercoil.specs.Figures.{degrees_plotted, from_degrees_said, plotted};
ghost use Rattle.addercoil.specs.Me.{me_said};
ghost use Rattle.addercoil.specs.Messages.{encoded_from, message_said};
ghost use Rattle.addercoil.specs.Spots.{as_counts, encode_said, pair_said, single_said};
ghost use Rattle.addercoil.specs.Stamps.{received_stamp};
ghost use Rattle.addercoil.specs.Tables.{bytes_for, clock_said, next_said, received_sent, set_up_sent, site_said};
ghost use Rattle.addercoil.specs.Version.{version};
ghost use Rattle.entries.specs.Sent.{into, sent};
ghost use Rattle.feed.specs.Feed.{fed_block};
ghost use Rattle.messages.specs.Message.{decoded};
ghost use Rattle.rows.specs.Rows.{row_size};
ghost use Rattle.table.specs.Table.{clock_in, next_above, received, set_up, set_up_at, site_in};

use positions::Size;

#[unsafe(no_mangle)]
pub extern "C" fn addercoil_feed_block(
    table: &mut [u8],
    block: &[u8],
    bad: u64,
    out: &mut [u64],
) -> u32
    ensures { both (sent result out.new) table.new ≡ cond (not (eqb (length out.old) 1)) (both (sent 1 out.old) table.old) (fed_into out.old (fed_block table.old block.now bad)) }
{
    addercoil::blocks::addercoil_feed_block(table, block, bad, out)
}

#[unsafe(no_mangle)]
pub extern "C" fn addercoil_degrees(latitude: i32, longitude: u32, out: &mut [f64]) -> u32
    ensures { plotted result out.new ≡ degrees_plotted out.old latitude longitude }
{
    addercoil::figures::addercoil_degrees(latitude, longitude, out)
}

#[unsafe(no_mangle)]
pub extern "C" fn addercoil_from_degrees(latitude: f64, longitude: f64, out: &mut [u64]) -> u32
    ensures { sent result out.new ≡ into 2 out.old (from_degrees_said latitude longitude) }
{
    addercoil::figures::addercoil_from_degrees(latitude, longitude, out)
}

#[unsafe(no_mangle)]
pub extern "C" fn addercoil_me(me: u64, key: u32, fields: &mut [u64]) -> u32
    ensures { sent result fields.new ≡ into row_size fields.old (me_said me key) }
{
    addercoil::me::addercoil_me(me, key, fields)
}

#[unsafe(no_mangle)]
pub extern "C" fn addercoil_decode(message: &[u8], fields: &mut [u64]) -> u32
    ensures { sent result fields.new ≡ into row_size fields.old (message_said (decoded message.now)) }
{
    addercoil::numbers::addercoil_decode(message, fields)
}

#[unsafe(no_mangle)]
pub extern "C" fn addercoil_encode(fields: &[u64], message: &mut [u8]) -> u32
    ensures { sent result message.new ≡ encoded_from fields.now message.old }
{
    addercoil::numbers::addercoil_encode(fields, message)
}

#[unsafe(no_mangle)]
pub extern "C" fn addercoil_encode_position(
    latitude: i32,
    longitude: u32,
    surface: u32,
    odd: u32,
    out: &mut [u64],
) -> u32
    ensures { sent result out.new ≡ into 2 out.old (encode_said Size.Fine latitude longitude surface odd) }
{
    addercoil::spots::addercoil_encode_position(latitude, longitude, surface, odd, out)
}

#[unsafe(no_mangle)]
pub extern "C" fn addercoil_encode_position_coarse(
    latitude: i32,
    longitude: u32,
    odd: u32,
    out: &mut [u64],
) -> u32
    ensures { sent result out.new ≡ into 2 out.old (encode_said Size.Coarse latitude longitude 0 odd) }
{
    addercoil::spots::addercoil_encode_position_coarse(latitude, longitude, odd, out)
}

#[unsafe(no_mangle)]
pub extern "C" fn addercoil_pair(
    even_latitude: u32,
    even_longitude: u32,
    odd_latitude: u32,
    odd_longitude: u32,
    later_odd: u32,
    out: &mut [u64],
) -> u32
    ensures { sent result out.new ≡ into 2 out.old (pair_said Size.Fine (as_counts even_latitude even_longitude) (as_counts odd_latitude odd_longitude) later_odd) }
{
    addercoil::spots::addercoil_pair(
        even_latitude,
        even_longitude,
        odd_latitude,
        odd_longitude,
        later_odd,
        out,
    )
}

#[unsafe(no_mangle)]
pub extern "C" fn addercoil_pair_coarse(
    even_latitude: u32,
    even_longitude: u32,
    odd_latitude: u32,
    odd_longitude: u32,
    later_odd: u32,
    out: &mut [u64],
) -> u32
    ensures { sent result out.new ≡ into 2 out.old (pair_said Size.Coarse (as_counts even_latitude even_longitude) (as_counts odd_latitude odd_longitude) later_odd) }
{
    addercoil::spots::addercoil_pair_coarse(
        even_latitude,
        even_longitude,
        odd_latitude,
        odd_longitude,
        later_odd,
        out,
    )
}

#[unsafe(no_mangle)]
pub extern "C" fn addercoil_single(
    latitude: i32,
    longitude: u32,
    count_latitude: u32,
    count_longitude: u32,
    surface: u32,
    odd: u32,
    out: &mut [u64],
) -> u32
    ensures { sent result out.new ≡ into 2 out.old (single_said Size.Fine latitude longitude (as_counts count_latitude count_longitude) surface odd) }
{
    addercoil::spots::addercoil_single(
        latitude,
        longitude,
        count_latitude,
        count_longitude,
        surface,
        odd,
        out,
    )
}

#[unsafe(no_mangle)]
pub extern "C" fn addercoil_single_coarse(
    latitude: i32,
    longitude: u32,
    count_latitude: u32,
    count_longitude: u32,
    odd: u32,
    out: &mut [u64],
) -> u32
    ensures { sent result out.new ≡ into 2 out.old (single_said Size.Coarse latitude longitude (as_counts count_latitude count_longitude) 0 odd) }
{
    addercoil::spots::addercoil_single_coarse(
        latitude,
        longitude,
        count_latitude,
        count_longitude,
        odd,
        out,
    )
}

#[unsafe(no_mangle)]
pub extern "C" fn addercoil_receive_stamp(
    table: &mut [u8],
    message: &[u8],
    stamp: u32,
    state: &mut [u64],
) -> u32
    ensures { both (sent result state.new) table.new ≡ received_stamp table.old message.now stamp state.old }
{
    addercoil::stamped::addercoil_receive_stamp(table, message, stamp, state)
}

#[unsafe(no_mangle)]
pub extern "C" fn addercoil_table_bytes(places: usize) -> usize
    ensures { result ≡ bytes_for places }
{
    addercoil::tables::addercoil_table_bytes(places)
}

#[unsafe(no_mangle)]
pub extern "C" fn addercoil_set_up(table: &mut [u8]) -> u32
    ensures { sent result table.new ≡ set_up_sent (set_up table.old) }
{
    addercoil::tables::addercoil_set_up(table)
}

#[unsafe(no_mangle)]
pub extern "C" fn addercoil_set_up_at(table: &mut [u8], latitude: i32, longitude: u32) -> u32
    ensures { sent result table.new ≡ set_up_sent (set_up_at table.old (record { latitude = latitude; longitude = longitude })) }
{
    addercoil::tables::addercoil_set_up_at(table, latitude, longitude)
}

#[unsafe(no_mangle)]
pub extern "C" fn addercoil_receive(table: &mut [u8], message: &[u8], time: u64) -> u32
    ensures { sent result table.new ≡ received_sent (received table.old message.now time) }
{
    addercoil::tables::addercoil_receive(table, message, time)
}

#[unsafe(no_mangle)]
pub extern "C" fn addercoil_clock(table: &[u8], out: &mut [u64]) -> u32
    ensures { sent result out.new ≡ into 1 out.old (clock_said (clock_in table.now)) }
{
    addercoil::tables::addercoil_clock(table, out)
}

#[unsafe(no_mangle)]
pub extern "C" fn addercoil_site(table: &[u8], out: &mut [u64]) -> u32
    ensures { sent result out.new ≡ into 3 out.old (site_said (site_in table.now)) }
{
    addercoil::tables::addercoil_site(table, out)
}

#[unsafe(no_mangle)]
pub extern "C" fn addercoil_next(table: &[u8], key: u32, out: &mut [u64]) -> u32
    ensures { sent result out.new ≡ into 1 out.old (next_said (next_above table.now key)) }
{
    addercoil::tables::addercoil_next(table, key, out)
}

#[unsafe(no_mangle)]
pub extern "C" fn addercoil_version() -> u32
    ensures { result ≡ version }
{
    addercoil::version::addercoil_version()
}
