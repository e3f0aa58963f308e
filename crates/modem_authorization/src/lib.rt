// The authorization machine, by value: its step hands the machine back with the Identifier counter and the messages that it sends, as
// specs/Authorization.antt says. What it does to the TEK machines stands in `modem_receive`.

#![tactic(auto)]

pub mod authorization;
