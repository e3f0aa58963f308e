// The clock's rule on one record.
ghost use Rattle.std.specs.Prelude.{◌≡◌, ◌+◌, ◌≤◌, length};
ghost use Rattle.key_association.specs.Record.{Rollable};
ghost use Rattle.key_association.specs.Roll.{rolled_of};

use crate::mint::mint;
use crate::record::Assoc;
use key_traffic::numbers::tek_after;
use key_traffic::suites::width;
use key_traffic::traffic::KEY_MATERIAL;

// The clock goes to `t`; `m` has the record's 64 octets of fresh material at `at`.
pub fn rolled(a: Assoc, half: u64, t: u64, m: &[u8], at: usize) -> Assoc
    requires { Rollable half t a × (at + 64 ≤ length m.now) }
    ensures { result ≡ rolled_of half t m.now at a }
{
    if t < a.older.deadline {
        return a;
    }
    let w = width(a.suite);
    if t < a.newer.deadline {
        let next = mint(
            m,
            at,
            w,
            tek_after(a.newer.number, 1),
            a.newer.deadline + half,
        );
        return Assoc {
            older: a.newer,
            newer: next,
            ..a
        };
    }
    let first = mint(m, at, w, tek_after(a.newer.number, 1), t + half);
    let second = mint(
        m,
        at + KEY_MATERIAL,
        w,
        tek_after(a.newer.number, 2),
        t + 2 * half,
    );
    Assoc {
        older: first,
        newer: second,
        ..a
    }
}
