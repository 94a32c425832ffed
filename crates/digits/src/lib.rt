// Digits: octets as capital hex digits, hex digits in either case as octets, numbers in decimal.
#![tactic(auto)]

pub mod decimal;
pub mod hex;
pub mod read;
