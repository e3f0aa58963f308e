// The fields of a message as octets at fixed offsets, for C, as `curlewreel` takes and gives them: what is laid out and taken back is defined in
// specs/Layout.antt. That a reading is taken back as its fields is `reading_back` in proofs/ReadHeld.antt, that its last octet tells whether the
// digest holds `reading_told`.

#![tactic(auto)]

pub mod layout;
