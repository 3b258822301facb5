//! Structures, commands, responses and frames in bytes, both ways, and the first fault of others, beside what is proved
//! of them. Bytes, codes and places are written out by hand from the tables of Parts 2 and 3. Which commands and
//! responses are taken and which are refused, and where, stands in the files of the folder checks.
#![tactic(auto)]

#[cfg(test)]
mod tests;
