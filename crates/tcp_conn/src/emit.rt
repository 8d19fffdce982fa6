//! The way out (RFC 9293, 3.7, 3.8 and 3.10): `due` is what goes out next, `segment` its header and options, `write` its
//! bytes, and `transmit` what is reported of it and the end after it; `within` holds back what a window doesn't allow.
//! `parts` lends its text in place of a copy, and `train` writes several segments as one, `train_within` those that a
//! window allows.

pub(crate) mod due;
pub(crate) mod parts;
pub(crate) mod segment;
pub(crate) mod train;
mod train_within;
pub(crate) mod transmit;
mod within;
pub(crate) mod write;
