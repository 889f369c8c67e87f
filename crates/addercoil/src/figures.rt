// Spots in degrees, and back.
ghost use Rattle.std.specs.Prelude.{◌≡◌, length};
ghost use Rattle.entries.specs.Sent.{sent, into};
ghost use Rattle.addercoil.specs.Figures.{plotted, figures_in, degrees_plotted, from_degrees_said};

use crate::spots::give_spot;
use degrees::Degrees;
use positions::Spot;
use refusals::Refusal;

fn give_figures(out: &mut [f64], answer: Result<Degrees, Refusal>) -> u32
    requires { length out.old ≡ 2 }
    ensures { plotted result out.new ≡ figures_in out.old answer }
{
    match answer {
        Ok(d) => {
            out[0] = d.latitude;
            out[1] = d.longitude;
            0
        }
        Err(r) => refusals::number(r),
    }
}

// A spot in degrees, into 2 doubles. Or 1, then 8.
pub fn addercoil_degrees(latitude: i32, longitude: u32, out: &mut [f64]) -> u32
    ensures { plotted result out.new ≡ degrees_plotted out.old latitude longitude }
{
    if out.len() != 2 {
        return 1;
    }
    let spot = Spot {
        latitude,
        longitude,
    };
    give_figures(out, degrees::to_degrees(spot))
}

// The spot that two doubles exactly are, into 2 entries. Or 1, then 15.
pub fn addercoil_from_degrees(latitude: f64, longitude: f64, out: &mut [u64]) -> u32
    ensures { sent result out.new ≡ into 2 out.old (from_degrees_said latitude longitude) }
{
    if out.len() != 2 {
        return 1;
    }
    let d = Degrees {
        latitude,
        longitude,
    };
    give_spot(out, degrees::from_degrees(d))
}
