//! Many connections under one object, for C: each exported function is a call of [`tcp_host::Host`] and nothing more. A
//! connection is made by itself, moves into a host, where its four values find it, and moves out again.
pub(crate) mod choices;
pub(crate) mod emitting;
pub(crate) mod ends;
pub(crate) mod finding;
pub(crate) mod host_handle;
pub(crate) mod host_held;
pub(crate) mod ids;
pub(crate) mod listeners;
pub(crate) mod lodger;
pub(crate) mod lodging;
pub(crate) mod making;
pub(crate) mod segments;
pub(crate) mod timing;
pub(crate) mod user;
