// When a track is too old: what is held of an aircraft goes by its age.
ghost use Rattle.std.specs.Prelude.{◌≡◌, ◌-◌};
ghost use Rattle.track.specs.Held.{in_date};

// The earliest time that is less than 125,000 ago.
fn earliest(clock: u64) -> u64
    ensures { result ≡ clock - 124999 }
{
    clock.saturating_sub(124999)
}

// Whether a track that was last heard at a time is in date. It goes by the earliest time, since that is one for all tracks of a search.
pub fn is_in_date(clock: u64, heard: u64) -> bool
    ensures { result ≡ in_date clock heard }
{
    earliest(clock) <= heard
}
