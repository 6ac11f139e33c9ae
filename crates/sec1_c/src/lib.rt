//! The library for C: keys, points and DER of `sec1`. Each exported function takes slices as a
//! pointer and a length, stores what it finds through references, and returns 0, or a number that
//! says why it refused.
//!
//! For a slice a caller in C may pass NULL with the length 0, and never with another length. No
//! other pointer is NULL.
//!
//! No function allocates memory, keeps a pointer, or reads or writes beyond what it is given.
//! `sec1.h` declares them for C.
#![tactic(auto)]

mod algorithm;
mod buffer;
mod callers;
mod certificate;
mod container;
mod curve;
mod element;
mod encoding;
mod fault;
mod fields;
mod identifier;
mod key;
mod pem;
mod picture;
mod point;
mod private_key;
mod public_key;
mod signature;
mod span;
mod status;
