// Whether a line of another listing agrees with a row of ours.
#![tactic(auto)]

ghost use Rattle.std.specs.Prelude.{◌≡◌};
ghost use Rattle.agree.specs.Near.{shows as shows_of, along as along_of, agrees_of};
ghost use Rattle.agree.specs.Near.{up as up_of, down as down_of, east as east_of, west as west_of};

use text::Row;

fn up(z: i64) -> i64
    ensures { result ≡ up_of z }
{
    if z < 0x4000_0000_0000_0000 { z + 1 } else { z }
}

fn down(z: i64) -> i64
    ensures { result ≡ down_of z }
{
    if 0 - 0x4000_0000_0000_0000 < z {
        z - 1
    } else {
        z
    }
}

// Around the circle: after the last longitude comes 0.
fn east(z: i64) -> i64
    ensures { result ≡ east_of z }
{
    if z < 4294967295 { up(z) } else { 0 }
}

fn west(z: i64) -> i64
    ensures { result ≡ west_of z }
{
    if 0 < z { down(z) } else { 4294967295 }
}

// Whether the line is that of our row at another place.
fn shows(line: &[u8], row: Row, latitude: Option<i64>, longitude: Option<i64>) -> bool
    ensures { result ≡ shows_of line.now row latitude longitude }
{
    let there = Row {
        latitude,
        longitude,
        ..row
    };
    line == text::row_line(there).as_bytes()
}

// .. at a latitude, and a longitude within one unit of ours.
fn along(line: &[u8], row: Row, latitude: Option<i64>) -> bool
    ensures { result ≡ along_of line.now row latitude }
{
    let x = row.longitude;
    shows(line, row, latitude, x.map(west))
        | shows(line, row, latitude, x)
        | shows(line, row, latitude, x.map(east))
}

// Whether the line, its newline included, is our row's, but that latitude and longitude may be one unit away. The row's own text comes first, since most lines are just that.
pub fn agrees(line: &[u8], row: Row) -> bool
    ensures { result ≡ agrees_of line.now row }
{
    let y = row.latitude;
    let x = row.longitude;
    if shows(line, row, y, x) {
        return true;
    }
    along(line, row, y.map(down)) | along(line, row, y) | along(line, row, y.map(up))
}
