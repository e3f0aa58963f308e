// What is kept of a line that is read: its call, and where its octets and its keys stand.
ghost use Rattle.std.specs.Prelude.{◌≡◌};
ghost use Rattle.replay_read.specs.CallPlaces.{alone_of};

use crate::calls::Call;
use replay_fields::octets::Place;

// A call, and where the digits stand of its octets, of its AUTH-Key and of the message keys for what is read and for what is written.
#[derive(Clone, Copy)]
pub struct ReadCall {
    pub call: Call,
    pub octets: Place,
    pub auth: Place,
    pub read: Place,
    pub write: Place,
}

// No octets, for what a kind does not bring.
const NO_PLACE: Place = Place { at: 0, count: 0 };

// A call that brings numbers alone.
pub fn alone(call: Call) -> ReadCall
    ensures { result ≡ alone_of call }
{
    ReadCall {
        call,
        octets: NO_PLACE,
        auth: NO_PLACE,
        read: NO_PLACE,
        write: NO_PLACE,
    }
}
