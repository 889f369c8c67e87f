// ME, bits 33-88 of a message: one struct for each layout with all its fields, read from the bits and written back.
#![tactic(auto)]

mod airborne;
mod bodies;
mod coarse;
mod identification;
mod status;
mod surface;
mod velocity;

pub use airborne::{Airborne, airborne_fits, airborne_of};
pub use bodies::{
    Body, Layout, body_by, flag_in, flag_of, is_coarse, is_layout, is_position, is_taken,
    layout_by, layout_of, me_of, station_in, station_of, type_by, type_of,
};
pub use coarse::{Coarse, coarse_fits, coarse_of};
pub use identification::{Identification, identification_fits, identification_of};
pub use status::{Status, status_fits, status_of};
pub use surface::{Surface, surface_fits, surface_of};
pub use velocity::{Air, Ground, Vertical, air_fits, air_of, ground_fits, ground_of};
