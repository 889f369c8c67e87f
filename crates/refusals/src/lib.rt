// The numbers that come back: one case for each reason to refuse, with its number in RULES 3.2.
#![tactic(auto)]

ghost use Rattle.std.specs.Prelude.{◌≡◌};
ghost use Rattle.refusals.specs.Numbers.{number_of};

#[derive(Clone, Copy, Debug, PartialEq, Eq)]
pub enum Refusal {
    // a message or an output buffer that is not of 14 bytes
    Length = 1,
    // a time below the clock
    Late = 2,
    // a parity remainder that is not 0
    Parity = 3,
    // a DF or CF that is not taken
    Format = 4,
    // a TYPE or subtype that is not taken
    TypeCode = 5,
    // a key that is not held, and no place is free
    Full = 6,
    // a table of 0 or more than 1,024 places, or not of whole places
    Places = 7,
    // a field wider than its bits, fields that no taken message has, a latitude beyond a pole
    Field = 8,
    // a decoded latitude outside -90..90 degrees
    Latitude = 9,
    // two latitudes in different longitude zones
    Zones = 10,
    // a capture block that fails its rules
    Block = 11,
    // a key that is not held, and a message that starts no track
    NoTrack = 12,
    // a stamp whose time would pass 2^64 - 1
    Overrun = 13,
    // a log of more than 2,900 records, or not of whole ones, or a capture of more than 2,900
    Log = 14,
    // a double that is no place's figure in degrees
    Degrees = 15,
    // a text that is not in the form of a listing
    Form = 16,
}

impl From<Refusal> for u32 {
    ghost from_gives = { λ r n. n ≡ number_of r };

    fn from(r: Refusal) -> u32 {
        r as u32
    }
}

// The number of a refusal.
pub fn number(r: Refusal) -> u32
    ensures { result ≡ number_of r }
{
    u32::from(r)
}
