// How many slice units a submission has.
ghost use Rattle.std.specs.Prelude.{◌≡◌, ◌<◌, ◌^◌, length};
ghost use Rattle.nal_units.specs.Settled.{unit_in};
ghost use Rattle.driver_jobs.specs.Units.{HasUnits};

use nal_units::{Finder, Found};

/// How many slice units these bytes have (H.264, Annex B), up to a place at which they aren't a byte stream.
/// It takes no memory, so a render can be looked at by this number before anything is taken for it.
pub fn count_units(bytes: &[u8]) -> u32
    requires { length bytes.now < 2 ^ 32 }
    ensures { HasUnits bytes.now result }
{
    let mut finder = Finder::new();
    let mut place = 0;
    let mut count = 0;
    while place < bytes.len() {
        let (taken, found) = finder.push_slice(&bytes[place..]);
        place += taken;
        match found {
            Found::Nothing => {}
            Found::Unit { .. } => count += 1,
            Found::Broken { .. } => return count,
        }
    }
    count + units_in(finder.finish())
}

// How many units were found.
fn units_in(found: Found) -> u32
    ensures { result ≡ length (unit_in found) }
{
    match found {
        Found::Unit { .. } => 1,
        Found::Nothing => 0,
        Found::Broken { .. } => 0,
    }
}
