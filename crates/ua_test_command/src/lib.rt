//! Tests of the command, by its public calls alone, over readers and writers of memory and files: its words, what it prints, and what it tells of a fault.
//!
//! Proofs cover what the contracts say; here stands what no clause says: what is printed on the usual inputs, byte for byte, that no more is read
//! than is needed, and that each growth may be refused.
#![tactic(auto)]

#[cfg(test)]
mod addresses;
#[cfg(test)]
mod answering;
#[cfg(test)]
mod blocks;
#[cfg(test)]
mod failures;
#[cfg(test)]
mod forms;
#[cfg(test)]
mod hex_digits;
#[cfg(test)]
mod link_words;
#[cfg(test)]
mod many_words;
#[cfg(test)]
mod memory;
#[cfg(test)]
mod open_files;
#[cfg(test)]
mod packets;
#[cfg(test)]
mod parts;
#[cfg(test)]
mod reversing;
#[cfg(test)]
mod runs;
#[cfg(test)]
mod scripts;
#[cfg(test)]
mod second_lines;
#[cfg(test)]
mod showing;
#[cfg(test)]
mod showing_whole;
#[cfg(test)]
mod streams;
#[cfg(test)]
mod values;
#[cfg(test)]
mod words;
