//! The TIME-WAIT record (RFC 9293, 3.3.2 and 3.10.7.4): `record` is what takes the place of an end, `fields` its fields one
//! by one.

pub(crate) mod fields;
pub(crate) mod record;
