// What a lent table answers, in bytes or as a slice: a case for each answer, or the reason that it is refused.
ghost use Rattle.std.specs.Prelude.{◌≡◌};
ghost use Rattle.rules.specs.Keys.{key_or_end};
ghost use Rattle.rules.specs.Rules.{turned_away};

use refusals::Refusal;

// The key 0 is nobody's, and stands for the end.
pub fn key_or_end(key: u32) -> Option<u32>
    ensures { result ≡ key_or_end key }
{
    if key == 0 { None } else { Some(key) }
}

// What a message earns whose key is not held and that gets no place: one that starts a track finds the table full.
pub fn turned_away(starts: bool) -> Refusal
    ensures { result ≡ turned_away starts }
{
    if starts {
        Refusal::Full
    } else {
        Refusal::NoTrack
    }
}
