// A track as a row of numbers.
ghost use Rattle.std.specs.Prelude.{◌≡◌};
ghost use Rattle.table.specs.Table.{looked_up};
ghost use Rattle.entries.specs.Sent.{sent, into};
ghost use Rattle.track_rows.specs.Tracks.{track_size};
ghost use Rattle.track_rows.specs.Held.{looked_said};

// The track of a key, zeros if it is not held, into 72 entries. Or 1, then 7.
pub fn addercoil_look_up(table: &[u8], key: u32, out: &mut [u64]) -> u32
    ensures { sent result out.new ≡ into track_size out.old (looked_said key (looked_up table.now key)) }
{
    if out.len() != track_rows::TRACK {
        return 1;
    }
    track_rows::give_held(out, key, table::look_up(table, key))
}
