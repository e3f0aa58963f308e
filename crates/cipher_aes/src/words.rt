// The State as four words of four octets each, the first highest (FIPS 197, 3.4 and 3.5).

// The State (3.4): its four columns, the octet of row 0 highest. A round key has the same form (5.2).
#[derive(Clone, Copy)]
pub struct State {
    pub a: u32,
    pub b: u32,
    pub c: u32,
    pub d: u32,
}
