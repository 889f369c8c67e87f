// An ME by itself: the fields and readings of the 56 bits that a track keeps.
ghost use Rattle.std.specs.Prelude.{◌≡◌};
ghost use Rattle.entries.specs.Sent.{sent, into};
ghost use Rattle.rows.specs.Rows.{row_size};
ghost use Rattle.addercoil.specs.Me.{me_said};

// What an ME of a key says, into 28 entries. Or 1, then 8, then 5.
pub fn addercoil_me(me: u64, key: u32, fields: &mut [u64]) -> u32
    ensures { sent result fields.new ≡ into row_size fields.old (me_said me key) }
{
    if fields.len() != rows::ROW {
        return 1;
    }
    if (0x100_0000_0000_0000 <= me) | !keys::is_key(key) {
        return 8;
    }
    let layout = layouts::layout_by(keys::coarse_in(key), me);
    if !layouts::is_layout(layout) {
        return 5;
    }
    rows::put_me(fields, layout, me, keys::traffic_in(key));
    0
}
