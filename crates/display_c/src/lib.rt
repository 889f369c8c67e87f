// Addercoil for C, over the library `display`: each function calls that library's function of its name, under the same clauses. Only a static library exports, and it is an object of its own in the archive.
#![tactic(auto)]

ghost use Rattle.std.specs.Prelude.{◌≡◌};
ghost use Rattle.display.specs.Handed.{handed, listing_into};
ghost use Rattle.display.specs.Lines.{header_said, line_buffer, line_said};
ghost use Rattle.entries.specs.Sent.{into, sent};
ghost use Rattle.table.specs.Table.{looked_up};
ghost use Rattle.track_rows.specs.Held.{looked_said};
ghost use Rattle.track_rows.specs.Tracks.{track_size};

#[unsafe(no_mangle)]
pub extern "C" fn addercoil_header(table: &[u8], bad: u64, all: u32, out: &mut [u8]) -> u32
    ensures { sent result out.new ≡ into line_buffer out.old (header_said all table.now bad) }
{
    display::lines::addercoil_header(table, bad, all, out)
}

#[unsafe(no_mangle)]
pub extern "C" fn addercoil_line(table: &[u8], key: u32, all: u32, out: &mut [u8]) -> u32
    ensures { sent result out.new ≡ into line_buffer out.old (line_said all table.now key) }
{
    display::lines::addercoil_line(table, key, all, out)
}

#[unsafe(no_mangle)]
pub extern "C" fn addercoil_listing(
    table: &[u8],
    bad: u64,
    all: u32,
    order: &mut [u64],
    out: &mut [u8],
    written: &mut [u64],
) -> u32
    ensures { handed result order.new out.new written.new ≡ listing_into all table.now bad order.old out.old written.old }
{
    display::listing::addercoil_listing(table, bad, all, order, out, written)
}

#[unsafe(no_mangle)]
pub extern "C" fn addercoil_look_up(table: &[u8], key: u32, out: &mut [u64]) -> u32
    ensures { sent result out.new ≡ into track_size out.old (looked_said key (looked_up table.now key)) }
{
    display::tracks::addercoil_look_up(table, key, out)
}
