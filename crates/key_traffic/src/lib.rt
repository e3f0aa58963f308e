// The key types and rules that both ends share: key numbers of both kinds, suites, traffic keys, sealing, and the frame decision on two held
// keys. SAIDs and addresses have their limits in specs/Addresses.antt. Each function's contract equates its result with a definition of specs/; only
// `octets::put`, `octets::octet`, `sealing::put_key`, `sealing::put_opened` and `traffic::key_from` have a `requires`.

#![tactic(auto)]

pub mod frame;
pub mod numbers;
pub mod octets;
pub mod sealing;
pub mod suites;
pub mod traffic;
