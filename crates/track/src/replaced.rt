// The groups of a track: a message replaces its own whole, unknown included; only the altitude of a TYPE 0 may be left out. A position message leaves its TYPE and, in the air, bit 8 too.
ghost use Rattle.std.specs.Prelude.{◌≡◌, true, false, eqb};
ghost use Rattle.track.specs.Groups.{no_groups, identified, moving, on_surface, stating, at_pressure, reported, high, positioned};

use crate::Groups;

pub(crate) fn no_groups() -> Groups
    ensures { result ≡ no_groups }
{
    Groups {
        identification: 0,
        velocity: 0,
        surface: 0,
        status: 0,
        pressure: 0,
        height: 0,
        typecode: 0,
        bit8: false,
        coarse: false,
    }
}

pub(crate) fn with_identification(g: Groups, me: u64) -> Groups
    ensures { result ≡ identified g me }
{
    Groups {
        identification: me,
        ..g
    }
}

pub(crate) fn with_velocity(g: Groups, me: u64) -> Groups
    ensures { result ≡ moving g false me }
{
    Groups {
        velocity: me,
        coarse: false,
        ..g
    }
}

// A coarse message is its own velocity, and gives a pressure altitude.
pub(crate) fn with_coarse(g: Groups, me: u64, altitude: u16) -> Groups
    ensures { result ≡ at_pressure (moving g true me) altitude }
{
    Groups {
        velocity: me,
        pressure: altitude,
        coarse: true,
        ..g
    }
}

pub(crate) fn with_status(g: Groups, me: u64) -> Groups
    ensures { result ≡ stating g me }
{
    Groups { status: me, ..g }
}

pub(crate) fn with_surface(g: Groups, typecode: u8, me: u64) -> Groups
    ensures { result ≡ positioned (on_surface g me) typecode false }
{
    Groups {
        surface: me,
        typecode,
        bit8: false, // there is none on the surface
        ..g
    }
}

// A field of zero reports no altitude, and leaves the one before.
pub(crate) fn with_reported(g: Groups, altitude: u16) -> Groups
    ensures { result ≡ reported g altitude }
{
    Groups {
        pressure: if altitude == 0 { g.pressure } else { altitude },
        ..g
    }
}

pub(crate) fn with_altitude(g: Groups, typecode: u8, bit8: u8, altitude: u16) -> Groups
    ensures { result ≡ positioned (high g typecode altitude) typecode (eqb bit8 1) }
{
    let g = Groups {
        typecode,
        bit8: bit8 == 1,
        ..g
    };
    if typecode <= 18 {
        Groups {
            pressure: altitude,
            ..g
        }
    } else {
        Groups {
            height: altitude,
            ..g
        }
    }
}
