// The name of a call, the first field of its line.
ghost use Rattle.std.specs.Prelude.{◌≡◌};
ghost use Rattle.replay_read.specs.Call.{kind_named_of, carried_named_of, frame_named_of, octets_named_of};

use crate::calls::Kind;

// An if for each name: a match on the names was tried, and left 49 goals open for four of them.

// Which call on a frame's octets a name is of.
#[tactic(auto, unfolding(crate::specs::Call::octets_named_of, text::specs::Same::same_octets_of))]
fn octets_named(name: &[u8]) -> Option<Kind>
    ensures { result ≡ octets_named_of name.now }
{
    if name == b"sealdownframe".as_slice() {
        Some(Kind::SealDownFrame)
    } else if name == b"sealupframe".as_slice() {
        Some(Kind::SealUpFrame)
    } else if name == b"openupframe".as_slice() {
        Some(Kind::OpenUpFrame)
    } else if name == b"opendownframe".as_slice() {
        Some(Kind::OpenDownFrame)
    } else {
        None
    }
}

// Which call of a frame a name is of: a sealing or an opening.
#[tactic(auto, unfolding(crate::specs::Call::frame_named_of, text::specs::Same::same_octets_of))]
fn frame_named(name: &[u8]) -> Option<Kind>
    ensures { result ≡ frame_named_of name.now }
{
    if name == b"sealdown".as_slice() {
        Some(Kind::SealDown)
    } else if name == b"sealup".as_slice() {
        Some(Kind::SealUp)
    } else if name == b"openup".as_slice() {
        Some(Kind::OpenUp)
    } else if name == b"opendown".as_slice() {
        Some(Kind::OpenDown)
    } else {
        octets_named(name)
    }
}

// Which call of a message or of a frame a name is of.
#[tactic(auto, unfolding(crate::specs::Call::carried_named_of, text::specs::Same::same_octets_of))]
fn carried_named(name: &[u8]) -> Option<Kind>
    ensures { result ≡ carried_named_of name.now }
{
    if name == b"up".as_slice() {
        Some(Kind::Up)
    } else if name == b"down".as_slice() {
        Some(Kind::Down)
    } else {
        frame_named(name)
    }
}

// Which call a name is of.
#[tactic(auto, unfolding(crate::specs::Call::kind_named_of, text::specs::Same::same_octets_of))]
pub fn kind_named(name: &[u8]) -> Option<Kind>
    ensures { result ≡ kind_named_of name.now }
{
    if name == b"list".as_slice() {
        Some(Kind::List)
    } else if name == b"clock".as_slice() {
        Some(Kind::Clock)
    } else if name == b"established".as_slice() {
        Some(Kind::Established)
    } else if name == b"reauth".as_slice() {
        Some(Kind::Reauth)
    } else {
        carried_named(name)
    }
}
