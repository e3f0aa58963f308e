// Keys and vectors as 16 octets: read from a slice, asked for zeros past a width, and put into a lent slice. Each fact is for any width.
ghost use Rattle.std.specs.Prelude.{◌≡◌, ◌≤◌, length, take};
ghost use Rattle.key_traffic.specs.Octets.{octets_value, zero_past_of, overlay};

// Octets that hold a TEK or a vector, whatever its width.
pub const KEY_OCTETS: usize = 16;

// `w` octets of `m` from `at`, then zeros up to 16. What `m` lacks is zero.
pub fn octets(m: &[u8], at: usize, w: usize) -> [u8; KEY_OCTETS]
    ensures { result ≡ octets_value m.now at w }
{
    let mut r = [0u8; KEY_OCTETS];
    let start = at.min(m.len());
    let n = w.min(KEY_OCTETS).min(m.len() - start);
    r[..n].copy_from_slice(&m[start..start + n]);
    r
}

// Whether all octets from place `w` on are zero.
pub fn zero_past(o: [u8; KEY_OCTETS], w: usize) -> bool
    ensures { result ≡ zero_past_of w o }
{
    o.iter().skip(w).all(|x| *x == 0)
}

// The first `w` octets go to the front of `out`; the rest of `out` stays.
pub fn put(o: [u8; KEY_OCTETS], w: usize, out: &mut [u8])
    requires { (w ≤ 16) × (w ≤ length out.old) }
    ensures { out.new ≡ overlay out.old (take w o) }
{
    out[..w].copy_from_slice(&o[..w]);
}
