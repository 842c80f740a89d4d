//! Tests of the JSON of values, applications, endpoints and frames, by the public calls of `ua_json` alone.
//!
//! No clause says the texts. What is wanted stands here as docs/FORMATS.md and OPC 10000-6, 5.4, have it, and each line
//! is read again by a reader of JSON.
#![tactic(auto)]

#[cfg(test)]
mod captures;
#[cfg(test)]
mod deep;
#[cfg(test)]
mod lines;
#[cfg(test)]
mod memory;
#[cfg(test)]
mod services;
#[cfg(test)]
mod spelled;
#[cfg(test)]
mod values;
