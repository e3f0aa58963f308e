// Minting a traffic key from lent octets.
ghost use Rattle.std.specs.Prelude.{◌≡◌, ◌+◌, ◌≤◌, length};
ghost use Rattle.key_association.specs.Mint.{mint_of};

use key_traffic::numbers::TekNumber;
use key_traffic::traffic::{TrafficKey, key_from};

// The key that is minted from the 32 octets of `m` at `at`, `w` octets wide.
pub fn mint(m: &[u8], at: usize, w: usize, number: TekNumber, deadline: u64) -> TrafficKey
    requires { at + 32 ≤ length m.now }
    ensures { result ≡ mint_of m.now at w number deadline }
{
    key_from(m, at, w, number, deadline)
}
