// What a refusal tells.
ghost use Rattle.std.specs.Prelude.{◌≡◌};
ghost use Rattle.toolchain.specs.Checking.{number_of};
ghost use Rattle.doorlang_c.specs.Told.{told, place_of};

use toolchain::Refusal;

// Writes the place at fault where the text is refused; returns the answer.
#[tactic(auto, unfolding(crate::specs::Told::place_of))]
pub fn refused(r: Refusal, place: &mut usize) -> u32
    ensures { told result place.new ≡ told (number_of r) (place_of r place.old) }
{
    *place = r.place().unwrap_or(*place);
    r.number()
}
