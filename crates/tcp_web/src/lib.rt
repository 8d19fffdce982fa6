//! The replay for a page, a WebAssembly module that imports nothing. Each exported function works in a block of memory
//! that it is passed, and writes its text to where its caller says. apps/web/MODULE.md describes the calls.
//!
//! ```c
//! typedef struct { void *at; size_t size; } tcp_web_block;
//!
//! uint32_t tcp_web_replay(tcp_web_block memory, const uint8_t *script, size_t script_length, uint8_t *out, size_t out_length, size_t *count);
//! uint32_t tcp_web_steps(tcp_web_block memory, const uint8_t *script, size_t script_length, uint8_t *out, size_t out_length, size_t *count);
//! uint32_t tcp_web_rule(tcp_web_block memory, const uint8_t *script, size_t script_length, size_t number, uint8_t *out, size_t out_length, size_t *count);
//! uint32_t tcp_web_show(tcp_web_block memory, const uint8_t *script, size_t script_length, uint32_t side, size_t number, uint8_t *out, size_t out_length, size_t *count);
//! uint32_t tcp_web_numbers(tcp_web_block memory, const uint8_t *script, size_t script_length, size_t number, uint8_t *out, size_t out_length, size_t *count);
//! uint32_t tcp_web_sent(tcp_web_block memory, const uint8_t *script, size_t script_length, uint8_t *out, size_t out_length, size_t *count);
//! uint32_t tcp_web_list(tcp_web_block memory, const uint8_t *list, size_t list_length, uint8_t *out, size_t out_length, size_t *count, size_t *line);
//! uint32_t tcp_web_judge(tcp_web_block memory, const uint8_t *log, size_t log_length, uint32_t is_complete, uint32_t is_first, uint8_t *out, size_t out_length, size_t *count, size_t *line);
//! uint32_t tcp_web_capture(tcp_web_block memory, const uint8_t *file, size_t file_length, const uint8_t *at, size_t at_length, uint32_t is_json, uint32_t is_painted, uint8_t *out, size_t out_length, size_t *count);
//! ```
//!
//! The caller ensures what no code here can test: the block is aligned to 16, its size is a multiple of 16, and no
//! piece of memory that a call is passed overlaps another.
#![tactic(auto)]

mod answers;
mod captures;
mod exports;
mod faults;
mod texts;

pub use answers::{
    BAD_CAPTURE, FAULT, NO_ADDRESS, NO_MEMORY, NO_ROOM, NO_SEGMENT, NOTHING_JUDGED, REFUSED, WELL,
};
pub use captures::tcp_web_capture;
pub use exports::{
    tcp_web_judge, tcp_web_list, tcp_web_numbers, tcp_web_replay, tcp_web_rule, tcp_web_sent,
    tcp_web_show, tcp_web_steps,
};
