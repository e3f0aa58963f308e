// Numbers and octets as text. Decimal: reading answers whether the digits say a number below 2^64, and nothing wraps; what is written reads back
// as the same number (proofs/DecimalLaws.antt). Hexadecimal digits, lower case (specs/Hex.antt): octets that are written and read again are the same
// (proofs/HexBack.antt, `read_back`).

#![tactic(auto)]

pub mod characters;
pub mod decimal;
pub mod hex;
pub mod put;
