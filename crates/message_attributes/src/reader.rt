// The attribute reader: a struct of a holder's octets and a place. Its functions take it apart and leave the work to `next_at`.
ghost use Rattle.std.specs.Prelude.{◌≡◌};
ghost use Rattle.message_attributes.specs.Next.{stepped_from, Says};

use crate::attribute::{Next, next_at};

// A holder's octets, and the place at which the reader stands.
#[derive(Clone, Copy)]
pub struct Attributes<'a> {
    pub message: &'a [u8],
    pub at: usize,
}

// What stands at a reader's place, and the reader behind it.
#[derive(Clone, Copy)]
pub struct Stepped<'a> {
    pub attribute: Next,
    pub rest: Attributes<'a>,
}

// A reader at a place of a holder.
pub fn opened<'a>(message: &'a [u8], at: usize) -> Attributes<'a>
    ensures { (result.message ≡ message.entry) × (result.at ≡ at) }
{
    Attributes { message, at }
}

// One step of a reader.
pub fn next<'a>(r: Attributes<'a>) -> Stepped<'a>
    ensures { (result ≡ stepped_from r.entry) × Says r.entry.message.now r.entry.at result.attribute result.rest.at }
{
    let n = next_at(r.message, r.at);
    let rest = Attributes {
        message: r.message,
        at: n.at,
    };
    Stepped {
        attribute: n.attribute,
        rest,
    }
}
