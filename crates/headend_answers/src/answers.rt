// Which answer a request gets.
ghost use Rattle.std.specs.Prelude.{◌≡◌};
ghost use Rattle.headend_answers.specs.AnswerFields.{invalid, reject};
ghost use Rattle.headend_answers.specs.Answers.{key_answer_of, request_reaction_of, ReactionFits, reaction_of};

use crate::fields::{error_answer, key_reply, reply_answer};
use headend_state::authorization::{granted, is_active};
use headend_state::entries::{Known, is_listing, with_entry};
use headend_state::state::{BARRED, Entry, HeadEnd};
use key_association::record::Assoc;
use key_traffic::numbers::AkNumber;
use message_rules::codes::{
    CODE_AUTHORIZATION_INVALID, CODE_AUTHORIZATION_REJECT, CODE_AUTHORIZATION_REQUEST,
    CODE_KEY_REJECT, CODE_KEY_REQUEST, CODE_NONE, ERROR_DIGEST, ERROR_KEY_NUMBER, ERROR_PERMANENT,
    ERROR_UNAUTHORIZED_MODEM, ERROR_UNAUTHORIZED_SAID,
};
use message_rules::fields::Fields;

// What a message does: the head-end after it, and the fields of the answer; code CODE_NONE where there is none. No Option: `reaction_of` and the theorems on
// it, as `AnswerCases` of headend_calls has them, say the answer's code in either case.
#[derive(Clone, Copy)]
pub struct Reaction {
    pub state: HeadEnd,
    pub answer: Fields,
}

// Authorization Invalid.
fn invalid(identifier: u8, error: u8) -> Fields
    ensures { result ≡ invalid identifier error }
{
    error_answer(
        CODE_AUTHORIZATION_INVALID,
        identifier,
        AkNumber(0),
        0,
        error,
    )
}

// Authorization Reject.
fn reject(identifier: u8, error: u8) -> Fields
    ensures { result ≡ reject identifier error }
{
    error_answer(CODE_AUTHORIZATION_REJECT, identifier, AkNumber(0), 0, error)
}

// The answer to a Key Request, the first that applies; `a` is the record of its SAID.
#[tactic(auto, unfolding(crate::specs::Answers::key_answer_of))]
pub fn key_answer(clock: u64, k: Known, a: Assoc, digest: bool, f: Fields) -> Fields
    ensures { result ≡ key_answer_of clock k a digest f }
{
    if !k.is_listed {
        invalid(f.identifier, ERROR_UNAUTHORIZED_MODEM)
    } else if !is_active(clock, k.entry.keys, f.ak) {
        invalid(f.identifier, ERROR_KEY_NUMBER)
    } else if !digest {
        invalid(f.identifier, ERROR_DIGEST)
    } else if !is_listing(k.entry.listing, f.said) {
        error_answer(
            CODE_KEY_REJECT,
            f.identifier,
            f.ak,
            f.said,
            ERROR_UNAUTHORIZED_SAID,
        )
    } else {
        key_reply(clock, a, f)
    }
}

// An Authorization Request.
#[tactic(auto, unfolding(crate::specs::Answers::request_answer, crate::specs::Answers::request_state))]
fn request_reaction(h: HeadEnd, k: Known, identifier: u8) -> Reaction
    requires { ReactionFits h k }
    ensures { result ≡ request_reaction_of h k identifier }
{
    if !k.is_listed {
        Reaction {
            state: h,
            answer: reject(identifier, ERROR_UNAUTHORIZED_MODEM),
        }
    } else if k.entry.allowed == BARRED {
        Reaction {
            state: h,
            answer: reject(identifier, ERROR_PERMANENT),
        }
    } else {
        let keys = granted(h.settings.ak.life, h.clock, k.entry.keys);
        Reaction {
            state: with_entry(h, k.at, Entry { keys, ..k.entry }),
            answer: reply_answer(h.clock, identifier, k.entry.listing, keys),
        }
    }
}

// What a message that is taken does; Authentication Information gets no answer.
#[tactic(auto, unfolding(crate::specs::Answers::reaction_of))]
pub fn react(h: HeadEnd, k: Known, a: Assoc, digest: bool, f: Fields) -> Reaction
    requires { ReactionFits h k }
    ensures { result ≡ reaction_of h k a digest f }
{
    match f.code {
        CODE_AUTHORIZATION_REQUEST => request_reaction(h, k, f.identifier),
        CODE_KEY_REQUEST => Reaction {
            state: h,
            answer: key_answer(h.clock, k, a, digest, f),
        },
        _ => Reaction {
            state: h,
            answer: error_answer(CODE_NONE, 0, AkNumber(0), 0, 0),
        },
    }
}
