//! Functions and types as programs have them, each with the contract that the program needs.

// Keys, certificates and points.
pub mod borrowed_keys;
pub mod certificates;
pub mod key_store;
pub mod key_streams;
pub mod keys;
pub mod named_curves;
pub mod point_arrays;
pub mod points;
pub mod reading;
pub mod texts;

// Elements, types and records of DER.
pub mod content_info;
pub mod elements;
pub mod first_elements;
pub mod found;
pub mod known_lengths;
pub mod numbers;
pub mod open_kinds;
pub mod own_record;
pub mod whole_elements;

// What any input is.
pub mod pictures;
pub mod unseen_keys;

// By which kind bytes are refused, and what a refusal leaves.
pub mod failed_readers;
pub mod fault_places;
pub mod header_kinds;
pub mod said_kinds;
pub mod type_kinds;

// Streams and writers.
pub mod prepending;
pub mod streams;
pub mod writers;

// What follows from the laws.
pub mod contents;
pub mod laws;
