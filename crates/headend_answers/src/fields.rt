// The fields of the head-end's answers.
ghost use Rattle.std.specs.Prelude.{◌≡◌, ◌<◌};
ghost use Rattle.headend_answers.specs.AnswerFields.{error_answer_of, descriptor_at_of, reply_answer_of, params_at, key_reply_of};

use headend_state::authorization::newest;
use headend_state::state::AuthKeys;
use key_association::listing::Listing;
use key_association::record::Assoc;
use key_traffic::numbers::AkNumber;
use key_traffic::suites::width;
use key_traffic::traffic::{TrafficKey, difference};
use message_rules::codes::{
    CODE_AUTHORIZATION_REPLY, CODE_KEY_REPLY, SA_TYPE_PRIMARY, SA_TYPE_STATIC,
};
use message_rules::fields::{Descriptor, Fields, KeyOctets, Params, no_descriptors, no_params};

// An answer of which the error is zero, and all that comes after the SAID.
fn bare(code: u8, identifier: u8, ak: AkNumber, said: u16) -> Fields
    ensures { result ≡ error_answer_of code identifier ak said 0 }
{
    Fields {
        code,
        identifier,
        ak,
        said,
        life: 0,
        error: 0,
        count: 0,
        descriptors: no_descriptors(),
        older: no_params(),
        newer: no_params(),
    }
}

// An answer that carries an error, or none at all.
pub fn error_answer(code: u8, identifier: u8, ak: AkNumber, said: u16, error: u8) -> Fields
    ensures { result ≡ error_answer_of code identifier ak said error }
{
    Fields {
        error,
        ..bare(code, identifier, ak, said)
    }
}

// SA type 0 for the first SAID, 1 for the others.
#[tactic(auto, unfolding(crate::specs::AnswerFields::descriptor_at_of))]
fn descriptor_at(l: Listing, i: usize) -> Descriptor
    requires { i < 4 }
    ensures { result ≡ descriptor_at_of l i }
{
    if l.count <= i {
        Descriptor {
            said: 0,
            kind: 0,
            suite: 0,
        }
    } else {
        Descriptor {
            said: l.saids[i],
            kind: if i == 0 {
                SA_TYPE_PRIMARY
            } else {
                SA_TYPE_STATIC
            },
            suite: l.suites[i],
        }
    }
}

// Authorization Reply.
pub fn reply_answer(clock: u64, identifier: u8, l: Listing, k: AuthKeys) -> Fields
    ensures { result ≡ reply_answer_of clock identifier l k }
{
    Fields {
        life: difference(k.newer, clock),
        count: l.count,
        descriptors: [
            descriptor_at(l, 0),
            descriptor_at(l, 1),
            descriptor_at(l, 2),
            descriptor_at(l, 3),
        ],
        ..bare(CODE_AUTHORIZATION_REPLY, identifier, newest(k), 0)
    }
}

fn params_at(clock: u64, w: usize, k: TrafficKey) -> Params
    ensures { result ≡ params_at clock w k }
{
    // an array goes into a literal by a variable
    let tek_octets = k.tek;
    let vector_octets = k.vector;
    Params {
        number: k.number,
        life: difference(k.deadline, clock),
        tek: KeyOctets {
            width: w,
            octets: tek_octets,
        },
        vector: KeyOctets {
            width: w,
            octets: vector_octets,
        },
    }
}

// Key Reply, from the record of the SAID.
pub fn key_reply(clock: u64, a: Assoc, f: Fields) -> Fields
    ensures { result ≡ key_reply_of clock a f }
{
    let w = width(a.suite);
    Fields {
        older: params_at(clock, w, a.older),
        newer: params_at(clock, w, a.newer),
        ..bare(CODE_KEY_REPLY, f.identifier, f.ak, f.said)
    }
}
