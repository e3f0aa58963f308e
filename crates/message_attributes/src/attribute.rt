// One attribute at a place of a holder: type (1 octet), length (2), value (document 01, Messages).
ghost use Rattle.std.specs.Prelude.{◌≡◌};
ghost use Rattle.message_attributes.specs.Next.{step_at, Says};

use message_rules::codes::ATTRIBUTE_HEAD_OCTETS;

// What stands at a place of a holder. It is no Option of a Result, and its reader no Iterator: `next_number`, `next_values` and `Says` of
// specs/Next.antt, question 8's number and values, are over these three cases.
#[derive(Clone, Copy)]
pub enum Next {
    // An attribute: its value is the len octets from start.
    Attr { kind: u8, start: usize, len: usize },
    // Octets that make no whole attribute.
    Cut,
    // Nothing.
    End,
}

// What stands at a place, and the place behind it.
#[derive(Clone, Copy)]
pub struct Step {
    pub attribute: Next,
    pub at: usize,
}

// What stands at `at`: an attribute that ends inside its holder, a cut, or the end.
pub fn next_at(s: &[u8], at: usize) -> Step
    ensures { (result ≡ step_at s.now at) × Says s.now at result.attribute result.at }
{
    if s.len() <= at {
        return Step {
            attribute: Next::End,
            at,
        };
    }
    let left = s.len() - at;
    if left < ATTRIBUTE_HEAD_OCTETS {
        return Step {
            attribute: Next::Cut,
            at,
        };
    }
    let len = (s[at + 1] as usize) * 256 + (s[at + 2] as usize);
    if len <= left - ATTRIBUTE_HEAD_OCTETS {
        let start = at + ATTRIBUTE_HEAD_OCTETS;
        Step {
            attribute: Next::Attr {
                kind: s[at],
                start,
                len,
            },
            at: start + len,
        }
    } else {
        Step {
            attribute: Next::Cut,
            at,
        }
    }
}
