// A field of octets in hexadecimal digits: whether it is one, and where it stands.
ghost use Rattle.std.specs.Prelude.{◌≡◌};
ghost use Rattle.replay_fields.specs.Places.{Inside, octets_for};

use crate::fields::Field;
use text::hex::all_hex;

// Where digits stand in a line: `count` octets in twice as many digits from `at` on.
#[derive(Clone, Copy)]
pub struct Place {
    pub at: usize,
    pub count: usize,
}

// Where the octets stand that a field of the line says, if it says octets.
#[tactic(auto, unfolding(crate::specs::Places::octets_for, crate::specs::Places::text_of, text::specs::Hex::is_octets))]
pub fn octets_of(line: &[u8], f: Field) -> Option<Place>
    requires { Inside line.now f }
    ensures { result ≡ octets_for line.now f }
{
    let text = &line[f.at..f.end];
    let place = Place {
        at: f.at,
        count: text.len() / 2,
    };
    ((text.len() % 2 == 0) & all_hex(text)).then_some(place)
}
