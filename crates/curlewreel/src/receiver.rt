// Which end reads, by its number.
ghost use Rattle.std.specs.Prelude.{◌≡◌};
ghost use Rattle.curlewreel.specs.Read.{receiver_at};

use crate::words::HEAD_END;
use message_rules::fields::Receiver;

// The head-end for HEAD_END, else the modem: another number was refused before.
pub fn receiver(end: u8) -> Receiver
    ensures { result ≡ receiver_at end }
{
    if end == HEAD_END {
        return Receiver::HeadEnd;
    }
    Receiver::Modem
}
