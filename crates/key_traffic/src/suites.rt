// The two cryptographic suites, and how wide their keys and vectors are.
ghost use Rattle.std.specs.Prelude.{◌≡◌, ◌≤◌};
ghost use Rattle.key_traffic.specs.Suites.{width_of, suite_known_of, width_known_of};

// DES and AES, each in CBC mode.
pub const SUITE_DES: u16 = 256;

pub const SUITE_AES: u16 = 768;

// Octets of their TEKs and vectors.
pub const WIDTH_DES: usize = 8;

pub const WIDTH_AES: usize = 16;

// The octets of a suite's TEK and of its vector; 0 for a suite that is not known.
pub fn width(suite: u16) -> usize
    ensures { (result ≡ width_of suite) × (result ≤ 16) }
{
    match suite {
        SUITE_DES => WIDTH_DES,
        SUITE_AES => WIDTH_AES,
        _ => 0,
    }
}

// Whether a suite is one of the two.
pub fn suite_known(suite: u16) -> bool
    ensures { result ≡ suite_known_of suite }
{
    (suite == SUITE_DES) | (suite == SUITE_AES)
}

// Whether one of the suites has keys of this width.
pub fn width_known(w: usize) -> bool
    ensures { result ≡ width_known_of w }
{
    (w == WIDTH_DES) | (w == WIDTH_AES)
}
