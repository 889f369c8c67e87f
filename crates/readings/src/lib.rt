// What codes mean: each reading takes a code as the message has it and answers a value, or refuses what is wider than its bits; and so of a whole body.
#![tactic(auto)]

mod altitude;
mod amounts;
mod bodies;
mod coarse;
mod headings;
mod movement;
mod signed;
mod status;

pub use altitude::{Altitude, altitude_of};
pub use amounts::{Difference, Rate, Speed, difference_of, rate_of, speed_of};
pub use bodies::{
    AirReadings, AirborneReadings, CoarseReadings, GroundReadings, IdentificationReadings,
    Readings, StatusReadings, SurfaceReadings, readings_in, readings_of,
};
pub use coarse::{CoarseSpeed, coarse_speed_of};
pub use headings::{angle_of, heading_of, surface_heading_of};
pub use movement::{Movement, movement_of};
