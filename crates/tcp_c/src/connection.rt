//! An end with its timers, its congestion window, its policy, its loss recovery and its keep-alives, for C: each exported function
//! is a call of [`tcp_steady::Steady`], or of the connection in it, and nothing more. Times are counts of microseconds from any beginning; they never go back.
pub(crate) mod congestion;
pub(crate) mod driven;
pub(crate) mod driven_handle;
pub(crate) mod driven_held;
pub(crate) mod keep_alive;
pub(crate) mod making;
pub(crate) mod policy;
pub(crate) mod recovery;
pub(crate) mod rules;
pub(crate) mod segments;
pub(crate) mod timing;
pub(crate) mod user;
