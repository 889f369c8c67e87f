// What is handed out of a track that was asked for: its row, zeros where it is not held, or a number.
ghost use Rattle.std.specs.Prelude.{◌≡◌};
ghost use Rattle.entries.specs.Sent.{sent, given};
ghost use Rattle.track_rows.specs.Held.{looked_said};

use crate::tracks::track_values;
use entries::give;
use refusals::Refusal;
use track::Track;

// Of a key.
pub fn give_held(out: &mut [u64], key: u32, looked: Result<Option<Track>, Refusal>) -> u32
    ensures { sent result out.new ≡ given out.old (looked_said key looked) }
{
    match looked {
        Ok(Some(t)) => give(out, &track_values(t, key)),
        Ok(None) => give(out, &[0]),
        Err(r) => refusals::number(r),
    }
}
