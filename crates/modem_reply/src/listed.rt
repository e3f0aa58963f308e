// Which machines an Authorization Reply lets go on.
ghost use Rattle.std.specs.Prelude.{◌≡◌};
ghost use Rattle.modem_reply.specs.Listed.{lists, survives};

use message_rules::fields::Fields;
use modem_transitions::states::TEK_START;

// Whether the Reply lists a SAID with a suite.
pub fn is_listed(f: Fields, said: u16, suite: u16) -> bool
    ensures { result ≡ lists f said suite }
{
    f.descriptors
        .iter()
        .take(f.count)
        .any(|d| (d.said == said) & (d.suite == suite))
}

// Whether a slot's machine survives: `used` says whether the slot is in use, the rest is of its machine.
pub fn survives(used: bool, f: Fields, said: u16, suite: u16, state: u8) -> bool
    ensures { result ≡ survives used f said suite state }
{
    used & is_listed(f, said, suite) & (state != TEK_START)
}
