// The Identifier counter of a modem.
ghost use Rattle.std.specs.Prelude.{◌≡◌, cond};
ghost use Rattle.modem_transitions.specs.Identifier.{next_identifier_of};

// The Identifier that no new request has, and the first that one has.
const UNUSED: u8 = 0;

const FIRST: u8 = 1;

// The Identifier after `counter`; after 255 comes 1, since an answer with 0 would be taken for one that nobody asked for.
pub fn next_identifier(counter: u8) -> u8
    ensures { result ≡ next_identifier_of counter }
{
    match counter.wrapping_add(1) {
        UNUSED => FIRST,
        next => next,
    }
}

// The Identifier after `counter` where a new one is taken, or the one that is kept.
pub fn next_if(new: bool, counter: u8, kept: u8) -> u8
    ensures { result ≡ cond new (next_identifier_of counter) kept }
{
    if new { next_identifier(counter) } else { kept }
}
