//! What registers, counters and sessions hold and assert, which sessions authorize a command, and the hashes and MACs
//! under them; what callers seal, open and give up, by themselves and with a device. The expected MACs are those of
//! Python's hmac module over the texts of Part 1, "HMAC Computation", and of other implementations.
#![tactic(auto)]

#[cfg(test)]
mod tests;
