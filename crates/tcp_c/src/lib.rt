//! One end of TCP for C, a static library: each exported function is a call of [`tcp_conn::Endpoint`] and nothing more, or of
//! [`tcp_end::End`], an end with its timers, where its name begins with `tcp_c_connection`.
//!
//! ```c
//! typedef struct { uint64_t mark; void *at; } tcp_c_handle;
//! typedef struct { uint8_t byte[4]; } tcp_c_addr;
//! typedef struct {
//!     tcp_c_addr addr;
//!     uint16_t port, mss;
//!     uint32_t isn;
//!     size_t send_capacity, recv_capacity;
//!     uint64_t limit;
//!     uint8_t window_shift, scales, sack;
//!     uint16_t runs;
//! } tcp_c_config;
//! typedef struct {
//!     uint32_t phase, ending;
//!     size_t unread;
//!     uint64_t released, ordered, snd_una, rcv_position;
//!     size_t room, queued, in_flight;
//!     uint32_t mss;
//!     uint8_t own_shift, peer_shift, scaling, sack;
//!     uint32_t snd_wnd, rcv_wnd;
//!     uint64_t snd_nxt;
//!     uint32_t closing, finished;
//! } tcp_c_status_record;
//!
//! typedef struct {
//!     uint32_t at_once, rule;
//!     uint64_t acked;
//!     uint32_t brought, is_duplicate, window_taken;
//! } tcp_c_arrive_report;
//!
//! typedef struct { uint32_t guard, is_vouched; } tcp_c_intake;
//!
//! typedef struct {
//!     tcp_c_addr to;
//!     uint32_t kind;
//!     size_t length;
//!     uint64_t position;
//!     size_t count;
//! } tcp_c_transmit_record;
//!
//! typedef struct {
//!     tcp_c_addr to;
//!     uint32_t kind;
//!     size_t length;
//!     uint64_t position;
//!     size_t count, header, each, segments;
//! } tcp_c_train_record;
//!
//! typedef struct {
//!     uint32_t mark;
//!     tcp_c_addr addr, peer_addr;
//!     uint16_t port, peer_port;
//!     uint32_t snd_nxt, rcv_nxt, rcv_wnd;
//!     tcp_c_addr reset_addr;
//!     uint32_t reset_seq, reset_ack;
//!     uint16_t reset_port;
//!     uint8_t shift, ack;
//!     uint16_t reset, ending;
//! } tcp_c_time_wait_record;
//!
//! typedef struct {
//!     const uint8_t *first;
//!     size_t first_length;
//!     const uint8_t *second;
//!     size_t second_length;
//!     uint32_t ends;
//! } tcp_c_lent_record;
//!
//! typedef struct {
//!     tcp_c_addr to;
//!     uint32_t header;
//!     const uint8_t *first;
//!     size_t first_length;
//!     const uint8_t *second;
//!     size_t second_length;
//! } tcp_c_parts_record;
//!
//! typedef struct { uint64_t mark; void *at; } tcp_c_connection;
//! typedef struct {
//!     uint64_t first, least, greatest, granularity, after_syn;
//!     uint64_t time_wait, handshake, user, fin_wait_2;
//!     uint32_t suspect_after, guard;
//! } tcp_c_connection_rules;
//!
//! typedef struct {
//!     size_t length;
//!     uint64_t position, count;
//!     tcp_c_addr to;
//! } tcp_c_connection_segment;
//!
//! typedef struct {
//!     uint64_t cwnd, ssthresh, smss;
//!     uint32_t congestion, is_recovering;
//! } tcp_c_congestion;
//!
//! typedef struct {
//!     uint64_t ack_delay, override_timeout, answer_interval;
//!     uint32_t nagle;
//! } tcp_c_policy;
//!
//! typedef struct {
//!     uint64_t idle, interval;
//!     uint32_t most;
//! } tcp_c_keep_alive;
//!
//! typedef struct { uint64_t mark; void *at; } tcp_c_host;
//! typedef struct { uint64_t number; size_t slot; } tcp_c_host_id;
//! typedef struct { tcp_c_host_id id; uint32_t place; } tcp_c_host_arrived;
//! typedef struct {
//!     tcp_c_host_id id;
//!     size_t length;
//!     uint64_t position, count;
//!     tcp_c_addr from, to;
//!     uint32_t place;
//! } tcp_c_host_sent;
//! typedef struct { tcp_c_host_id id; uint32_t place, timer; } tcp_c_host_told;
//!
//! typedef struct { void *at; size_t size; } tcp_c_block;
//!
//! uint32_t tcp_c_new(tcp_c_handle *handle, const tcp_c_config *config, tcp_c_block block);
//! size_t tcp_c_room(const tcp_c_config *config);
//! uint32_t tcp_c_free(tcp_c_handle *handle);
//! uint32_t tcp_c_connect(tcp_c_handle *handle, const tcp_c_addr *addr, uint16_t port);
//! uint32_t tcp_c_listen(tcp_c_handle *handle);
//! uint32_t tcp_c_send(tcp_c_handle *handle, const uint8_t *text, size_t text_length, size_t *taken);
//! uint32_t tcp_c_receive(tcp_c_handle *handle, uint8_t *out, size_t out_length, size_t *count);
//! uint32_t tcp_c_peek(tcp_c_handle *handle, tcp_c_lent_record *lent);
//! uint32_t tcp_c_consume(tcp_c_handle *handle, size_t count, size_t *taken);
//! uint32_t tcp_c_acknowledge(tcp_c_handle *handle);
//! uint32_t tcp_c_close(tcp_c_handle *handle);
//! uint32_t tcp_c_abort(tcp_c_handle *handle);
//! uint32_t tcp_c_timer(tcp_c_handle *handle, uint32_t timer);
//! uint32_t tcp_c_arrive(tcp_c_handle *handle, const tcp_c_addr *src, const tcp_c_addr *dst, const uint8_t *bytes, size_t bytes_length);
//! uint32_t tcp_c_arrive_with_at_once(tcp_c_handle *handle, const tcp_c_addr *src, const tcp_c_addr *dst, const uint8_t *bytes, size_t bytes_length, uint32_t *at_once);
//! uint32_t tcp_c_arrive_with_report(tcp_c_handle *handle, const tcp_c_addr *src, const tcp_c_addr *dst, const uint8_t *bytes, size_t bytes_length, tcp_c_arrive_report *report);
//! uint32_t tcp_c_arrive_vouched(tcp_c_handle *handle, const tcp_c_addr *src, const tcp_c_addr *dst, const uint8_t *bytes, size_t bytes_length);
//! uint32_t tcp_c_arrive_vouched_with_report(tcp_c_handle *handle, const tcp_c_addr *src, const tcp_c_addr *dst, const uint8_t *bytes, size_t bytes_length, tcp_c_arrive_report *report);
//! uint32_t tcp_c_arrive_by(tcp_c_handle *handle, const tcp_c_addr *src, const tcp_c_addr *dst, const uint8_t *bytes, size_t bytes_length, const tcp_c_intake *intake, tcp_c_arrive_report *report);
//! uint32_t tcp_c_emit(tcp_c_handle *handle, uint8_t *out, size_t out_length, tcp_c_addr *to, size_t *count);
//! uint32_t tcp_c_emit_partial(tcp_c_handle *handle, uint8_t *out, size_t out_length, tcp_c_addr *to, size_t *count);
//! uint32_t tcp_c_emit_train(tcp_c_handle *handle, uint8_t *out, size_t out_length, size_t most, tcp_c_train_record *train);
//! uint32_t tcp_c_emit_acknowledgement(tcp_c_handle *handle, uint8_t *out, size_t out_length, tcp_c_addr *to, size_t *count);
//! uint32_t tcp_c_resend_first(tcp_c_handle *handle);
//! uint32_t tcp_c_resend(tcp_c_handle *handle, uint64_t from, uint64_t to);
//! uint32_t tcp_c_parts(tcp_c_handle *handle, uint8_t *header, size_t header_length, tcp_c_parts_record *parts);
//! uint32_t tcp_c_sent(tcp_c_handle *handle);
//! uint32_t tcp_c_transmit(tcp_c_handle *handle, uint8_t *out, size_t out_length, tcp_c_transmit_record *transmit);
//! uint32_t tcp_c_next(tcp_c_handle *handle, tcp_c_transmit_record *next);
//! uint32_t tcp_c_timers(tcp_c_handle *handle, uint32_t *running);
//! uint32_t tcp_c_pending(tcp_c_handle *handle, uint32_t *due);
//! uint32_t tcp_c_status(tcp_c_handle *handle, tcp_c_status_record *status);
//! uint32_t tcp_c_peer(tcp_c_handle *handle, tcp_c_addr *addr, uint16_t *port);
//! uint32_t tcp_c_stray_reset(const tcp_c_addr *src, const tcp_c_addr *dst, const uint8_t *bytes, size_t bytes_length, uint8_t *out, size_t out_length, size_t *count);
//! uint32_t tcp_c_time_wait(tcp_c_handle *handle, tcp_c_time_wait_record *time_wait);
//! uint32_t tcp_c_time_wait_arrive(tcp_c_time_wait_record *time_wait, const tcp_c_addr *src, const tcp_c_addr *dst, const uint8_t *bytes, size_t bytes_length);
//! uint32_t tcp_c_time_wait_timer(tcp_c_time_wait_record *time_wait, uint32_t timer);
//! uint32_t tcp_c_time_wait_emit(tcp_c_time_wait_record *time_wait, uint8_t *out, size_t out_length, tcp_c_addr *to, size_t *count);
//! uint32_t tcp_c_time_wait_pending(const tcp_c_time_wait_record *time_wait, uint32_t *due);
//! uint32_t tcp_c_time_wait_abort(tcp_c_time_wait_record *time_wait);
//! uint32_t tcp_c_time_wait_status(const tcp_c_time_wait_record *time_wait, uint32_t *phase, uint32_t *ending);
//!
//! uint32_t tcp_c_connection_connect(tcp_c_connection *handle, tcp_c_block block, const tcp_c_config *config, const tcp_c_connection_rules *rules, const tcp_c_addr *addr, uint16_t port, uint64_t now);
//! uint32_t tcp_c_connection_listen(tcp_c_connection *handle, tcp_c_block block, const tcp_c_config *config, const tcp_c_connection_rules *rules, uint64_t now);
//! size_t tcp_c_connection_room(const tcp_c_config *config);
//! uint32_t tcp_c_connection_free(tcp_c_connection *handle);
//! uint32_t tcp_c_connection_poll_at(tcp_c_connection *handle, uint64_t *at);
//! uint32_t tcp_c_connection_timeout(tcp_c_connection *handle, uint64_t now, uint32_t *timer);
//! uint32_t tcp_c_connection_tick(tcp_c_connection *handle, uint64_t now, uint32_t *timer, uint64_t *next);
//! uint32_t tcp_c_connection_arrive(tcp_c_connection *handle, uint64_t now, const tcp_c_addr *src, const tcp_c_addr *dst, const uint8_t *bytes, size_t bytes_length, tcp_c_arrive_report *report);
//! uint32_t tcp_c_connection_arrive_vouched(tcp_c_connection *handle, uint64_t now, const tcp_c_addr *src, const tcp_c_addr *dst, const uint8_t *bytes, size_t bytes_length, tcp_c_arrive_report *report);
//! uint32_t tcp_c_connection_emit(tcp_c_connection *handle, uint64_t now, uint64_t window, uint8_t *out, size_t out_length, tcp_c_connection_segment *segment);
//! uint32_t tcp_c_connection_emit_train(tcp_c_connection *handle, uint64_t now, uint64_t window, uint8_t *out, size_t out_length, size_t most, tcp_c_train_record *train);
//! uint32_t tcp_c_connection_send(tcp_c_connection *handle, uint64_t now, const uint8_t *text, size_t text_length, size_t *taken);
//! uint32_t tcp_c_connection_receive(tcp_c_connection *handle, uint64_t now, uint8_t *out, size_t out_length, size_t *count);
//! uint32_t tcp_c_connection_peek(tcp_c_connection *handle, tcp_c_lent_record *lent);
//! uint32_t tcp_c_connection_consume(tcp_c_connection *handle, uint64_t now, size_t count, size_t *taken);
//! uint32_t tcp_c_connection_acknowledge(tcp_c_connection *handle, uint64_t now);
//! uint32_t tcp_c_connection_close(tcp_c_connection *handle, uint64_t now);
//! uint32_t tcp_c_connection_abort(tcp_c_connection *handle, uint64_t now);
//! uint32_t tcp_c_connection_status(tcp_c_connection *handle, tcp_c_status_record *status);
//! uint32_t tcp_c_connection_peer(tcp_c_connection *handle, tcp_c_addr *addr, uint16_t *port);
//! uint32_t tcp_c_connection_set_user_timeout(tcp_c_connection *handle, uint64_t limit);
//! uint32_t tcp_c_connection_resend_first(tcp_c_connection *handle, uint64_t now);
//! uint32_t tcp_c_connection_resend(tcp_c_connection *handle, uint64_t now, uint64_t from, uint64_t to);
//! uint32_t tcp_c_connection_set_congestion(tcp_c_connection *handle, uint32_t congestion);
//! uint32_t tcp_c_connection_congestion(tcp_c_connection *handle, tcp_c_congestion *congestion);
//! uint32_t tcp_c_connection_set_policy(tcp_c_connection *handle, const tcp_c_policy *policy);
//! uint32_t tcp_c_connection_set_keep_alive(tcp_c_connection *handle, const tcp_c_keep_alive *rules, uint64_t now);
//! uint32_t tcp_c_connection_set_pacing(tcp_c_connection *handle, uint32_t is_paced);
//! uint32_t tcp_c_connection_set_recovery(tcp_c_connection *handle, tcp_c_block block, uint64_t now);
//!
//! uint32_t tcp_c_host_new(tcp_c_host *handle, tcp_c_block block, uint64_t time_wait, uint64_t stray_interval);
//! uint32_t tcp_c_host_free(tcp_c_host *handle);
//! uint32_t tcp_c_host_listen(tcp_c_host *handle, const tcp_c_addr *addr, uint16_t port, size_t backlog, tcp_c_host_id *listener);
//! uint32_t tcp_c_host_unlisten(tcp_c_host *handle, const tcp_c_host_id *listener);
//! uint32_t tcp_c_host_open(tcp_c_host *handle, tcp_c_connection *connection, tcp_c_host_id *id);
//! uint32_t tcp_c_host_admit(tcp_c_host *handle, const tcp_c_host_id *listener, tcp_c_connection *connection, const tcp_c_addr *src, const tcp_c_addr *dst, const uint8_t *bytes, size_t bytes_length, tcp_c_host_id *id);
//! uint32_t tcp_c_host_accept(tcp_c_host *handle, const tcp_c_host_id *listener, tcp_c_host_id *id);
//! uint32_t tcp_c_host_retire(tcp_c_host *handle, const tcp_c_host_id *id, tcp_c_connection *connection);
//! uint32_t tcp_c_host_remove(tcp_c_host *handle, const tcp_c_host_id *id, tcp_c_connection *connection);
//! uint32_t tcp_c_host_arrive(tcp_c_host *handle, uint64_t now, const tcp_c_addr *src, const tcp_c_addr *dst, const uint8_t *bytes, size_t bytes_length, tcp_c_host_arrived *arrived, tcp_c_arrive_report *report);
//! uint32_t tcp_c_host_arrive_vouched(tcp_c_host *handle, uint64_t now, const tcp_c_addr *src, const tcp_c_addr *dst, const uint8_t *bytes, size_t bytes_length, tcp_c_host_arrived *arrived, tcp_c_arrive_report *report);
//! uint32_t tcp_c_host_stray(tcp_c_host *handle, uint64_t now, const tcp_c_addr *src, const tcp_c_addr *dst, const uint8_t *bytes, size_t bytes_length, uint8_t *out, size_t out_length, size_t *count);
//! uint32_t tcp_c_host_emit(tcp_c_host *handle, uint64_t now, uint64_t window, uint8_t *out, size_t out_length, tcp_c_host_sent *sent);
//! uint32_t tcp_c_host_emit_by_id(tcp_c_host *handle, uint64_t now, const tcp_c_host_id *id, uint64_t window, uint8_t *out, size_t out_length, tcp_c_connection_segment *segment);
//! uint32_t tcp_c_host_emit_train(tcp_c_host *handle, uint64_t now, const tcp_c_host_id *id, uint64_t window, uint8_t *out, size_t out_length, size_t most, tcp_c_train_record *train);
//! uint32_t tcp_c_host_timeout(tcp_c_host *handle, uint64_t now, tcp_c_host_told *told);
//! uint32_t tcp_c_host_poll_at(tcp_c_host *handle, uint64_t *at);
//! uint32_t tcp_c_host_find(tcp_c_host *handle, const tcp_c_addr *addr, uint16_t port, const tcp_c_addr *peer_addr, uint16_t peer_port, tcp_c_host_id *id);
//! uint32_t tcp_c_host_send(tcp_c_host *handle, uint64_t now, const tcp_c_host_id *id, const uint8_t *text, size_t text_length, size_t *taken);
//! uint32_t tcp_c_host_receive(tcp_c_host *handle, uint64_t now, const tcp_c_host_id *id, uint8_t *out, size_t out_length, size_t *count);
//! uint32_t tcp_c_host_peek(tcp_c_host *handle, const tcp_c_host_id *id, tcp_c_lent_record *lent);
//! uint32_t tcp_c_host_consume(tcp_c_host *handle, uint64_t now, const tcp_c_host_id *id, size_t count, size_t *taken);
//! uint32_t tcp_c_host_acknowledge(tcp_c_host *handle, uint64_t now, const tcp_c_host_id *id);
//! uint32_t tcp_c_host_close(tcp_c_host *handle, uint64_t now, const tcp_c_host_id *id);
//! uint32_t tcp_c_host_abort(tcp_c_host *handle, uint64_t now, const tcp_c_host_id *id);
//! uint32_t tcp_c_host_status(tcp_c_host *handle, const tcp_c_host_id *id, tcp_c_status_record *status);
//! uint32_t tcp_c_host_peer(tcp_c_host *handle, const tcp_c_host_id *id, tcp_c_addr *addr, uint16_t *port);
//! uint32_t tcp_c_host_set_policy(tcp_c_host *handle, const tcp_c_host_id *id, const tcp_c_policy *policy);
//! uint32_t tcp_c_host_set_keep_alive(tcp_c_host *handle, uint64_t now, const tcp_c_host_id *id, const tcp_c_keep_alive *rules);
//! uint32_t tcp_c_host_set_pacing(tcp_c_host *handle, const tcp_c_host_id *id, uint32_t is_paced);
//! uint32_t tcp_c_host_set_user_timeout(tcp_c_host *handle, const tcp_c_host_id *id, uint64_t limit);
//! uint32_t tcp_c_host_resend_first(tcp_c_host *handle, uint64_t now, const tcp_c_host_id *id);
//! uint32_t tcp_c_host_resend(tcp_c_host *handle, uint64_t now, const tcp_c_host_id *id, uint64_t from, uint64_t to);
//! ```
//!
//! Each returns a number of the table in `answers`, or that of a refusal: 1 to 6 for bytes that are no segment
//! ([`tcp_wire::DecodeError`]), 11 to 16 for a call ([`tcp_conn::CallError`]), 21 to 25 for a config
//! ([`tcp_conn::ConfigError`]). That the handle has no end is found before anything else. What is reported through a
//! pointer is written at each answer: 0 where there is nothing to report.
//!
//! The caller ensures what no code here can test. No pointer is null, not even that of no bytes. What a call writes
//! overlaps nothing else that it is passed. A length is at most `PTRDIFF_MAX`. A handle with an end is changed by these
//! functions alone, one call at a time, and a copy of it is never passed. It may go to another thread, ordered by a
//! lock or by the thread's start or join. Any other bytes are a handle without an end, if their first word isn't
//! [`MARK_OF_LIVE`].
//!
//! What `tcp_c_peek` and `tcp_c_parts` lend lies in the block of the end, at the pointers that they write. Their
//! contracts state how many bytes lie there, and that a part is at null exactly where it is empty. Which bytes these are is
//! stated by the functions below them (`told_of` in lending.rt and parts.rt): each part is reported by the address and the
//! length of the slice that the end lends, in its order. The exported functions can't repeat that: a contract in Rattle
//! doesn't describe memory that its function doesn't own. Nobody writes the bytes, and the next call that changes the end
//! ends the loan.
//!
//! A TIME-WAIT record is a plain value: a copy is another record in the same place, and any bytes are one or none.
//!
//! An end lies in the block that `tcp_c_new` was passed, all of it: nothing requests memory. The block is aligned to
//! 16, its size is a multiple of 16, and nobody else uses a byte of it until `tcp_c_free`. Then it is the caller's
//! again.
#![tactic(auto)]

mod answers;
mod c_time_wait;
mod connection;
mod emission;
mod handle;
mod held;
mod host;
mod intake;
mod lending;
mod loose;
mod making;
mod pacing;
mod parts;
mod records;
mod reports;
mod room;
mod runs;
mod segments;
mod status;
mod time_wait_calls;
mod timing;
mod trains;
mod user;
mod vouched;

pub use answers::BACKLOG_FULL;
pub use answers::BAD_RULES;
pub use answers::BAD_RUNS;
pub use answers::DONE;
pub use answers::EMIT_FIRST;
pub use answers::END_OF_STREAM;
pub use answers::GONE;
pub use answers::IN_USE;
pub use answers::LITTLE_ROOM;
pub use answers::NO_END;
pub use answers::NO_RULE;
pub use answers::NO_TIME_WAIT;
pub use answers::NO_TIMER;
pub use answers::NOBODY;
pub use answers::NOT_TIME_WAIT;
pub use answers::NOTHING_DUE;
pub use answers::NOTHING_UNREAD;
pub use answers::SEGMENT_DROPPED;
pub use answers::SEGMENT_NOT_MINE;
pub use answers::TAKEN;
pub use answers::WITHHELD;
pub use c_time_wait::MARK_OF_TIME_WAIT;
pub use connection::congestion::tcp_c_connection_congestion;
pub use connection::congestion::tcp_c_connection_set_congestion;
pub use connection::driven::Driven;
pub use connection::driven_handle::DrivenHandle;
pub use connection::driven_handle::MARK_OF_CONNECTION;
pub use connection::driven_held::DrivenHeld;
pub use connection::keep_alive::tcp_c_connection_set_keep_alive;
pub use connection::keep_alive::tcp_c_connection_set_pacing;
pub use connection::making::tcp_c_connection_connect;
pub use connection::making::tcp_c_connection_free;
pub use connection::making::tcp_c_connection_listen;
pub use connection::making::tcp_c_connection_room;
pub use connection::policy::tcp_c_connection_set_policy;
pub use connection::recovery::tcp_c_connection_set_recovery;
pub use connection::rules::NEVER;
pub use connection::segments::tcp_c_connection_arrive;
pub use connection::segments::tcp_c_connection_arrive_vouched;
pub use connection::segments::tcp_c_connection_emit;
pub use connection::segments::tcp_c_connection_emit_train;
pub use connection::segments::tcp_c_connection_resend;
pub use connection::segments::tcp_c_connection_resend_first;
pub use connection::timing::tcp_c_connection_poll_at;
pub use connection::timing::tcp_c_connection_set_user_timeout;
pub use connection::timing::tcp_c_connection_tick;
pub use connection::timing::tcp_c_connection_timeout;
pub use connection::user::tcp_c_connection_abort;
pub use connection::user::tcp_c_connection_acknowledge;
pub use connection::user::tcp_c_connection_close;
pub use connection::user::tcp_c_connection_consume;
pub use connection::user::tcp_c_connection_peek;
pub use connection::user::tcp_c_connection_peer;
pub use connection::user::tcp_c_connection_receive;
pub use connection::user::tcp_c_connection_send;
pub use connection::user::tcp_c_connection_status;
pub use emission::tcp_c_emit;
pub use emission::tcp_c_emit_acknowledgement;
pub use emission::tcp_c_emit_partial;
pub use handle::Handle;
pub use handle::MARK_OF_LIVE;
pub use held::Held;
pub use host::choices::Choice;
pub use host::choices::tcp_c_host_resend;
pub use host::choices::tcp_c_host_resend_first;
pub use host::choices::tcp_c_host_set_keep_alive;
pub use host::choices::tcp_c_host_set_pacing;
pub use host::choices::tcp_c_host_set_policy;
pub use host::choices::tcp_c_host_set_user_timeout;
pub use host::emitting::tcp_c_host_emit_by_id;
pub use host::emitting::tcp_c_host_emit_train;
pub use host::ends::tcp_c_host_open;
pub use host::ends::tcp_c_host_remove;
pub use host::ends::tcp_c_host_retire;
pub use host::finding::tcp_c_host_find;
pub use host::host_handle::HostHandle;
pub use host::host_handle::MARK_OF_HOST;
pub use host::host_held::HostHeld;
pub use host::ids::PLACE_END;
pub use host::ids::PLACE_FULL;
pub use host::ids::PLACE_LISTENER;
pub use host::ids::PLACE_NONE;
pub use host::ids::PLACE_RECORD;
pub use host::ids::PLACE_STRAY;
pub use host::listeners::tcp_c_host_accept;
pub use host::listeners::tcp_c_host_admit;
pub use host::listeners::tcp_c_host_listen;
pub use host::listeners::tcp_c_host_unlisten;
pub use host::lodger::Lodger;
pub use host::lodging::Lodging;
pub use host::making::tcp_c_host_free;
pub use host::making::tcp_c_host_new;
pub use host::segments::tcp_c_host_arrive;
pub use host::segments::tcp_c_host_arrive_vouched;
pub use host::segments::tcp_c_host_emit;
pub use host::segments::tcp_c_host_stray;
pub use host::timing::NO_TIMER_EXPIRED;
pub use host::timing::tcp_c_host_poll_at;
pub use host::timing::tcp_c_host_timeout;
pub use host::user::tcp_c_host_abort;
pub use host::user::tcp_c_host_acknowledge;
pub use host::user::tcp_c_host_close;
pub use host::user::tcp_c_host_consume;
pub use host::user::tcp_c_host_peek;
pub use host::user::tcp_c_host_peer;
pub use host::user::tcp_c_host_receive;
pub use host::user::tcp_c_host_send;
pub use host::user::tcp_c_host_status;
pub use intake::tcp_c_arrive_by;
pub use lending::tcp_c_consume;
pub use lending::tcp_c_peek;
pub use making::tcp_c_free;
pub use making::tcp_c_new;
pub use pacing::tcp_c_resend;
pub use pacing::tcp_c_resend_first;
pub use parts::tcp_c_parts;
pub use parts::tcp_c_sent;
pub use records::CAddr;
pub use records::CArriveReport;
pub use records::CConfig;
pub use records::CCongestion;
pub use records::CConnectionRules;
pub use records::CConnectionSegment;
pub use records::CHostArrived;
pub use records::CHostId;
pub use records::CHostSent;
pub use records::CHostTold;
pub use records::CIntake;
pub use records::CKeepAlive;
pub use records::CLent;
pub use records::CParts;
pub use records::CPolicy;
pub use records::CStatus;
pub use records::CTimeWait;
pub use records::CTrain;
pub use records::CTransmit;
pub use reports::tcp_c_arrive_with_report;
pub use reports::tcp_c_next;
pub use reports::tcp_c_transmit;
pub use room::tcp_c_room;
pub use runs::RUNS;
pub use segments::tcp_c_arrive;
pub use segments::tcp_c_arrive_with_at_once;
pub use segments::tcp_c_stray_reset;
pub use status::tcp_c_peer;
pub use status::tcp_c_pending;
pub use status::tcp_c_status;
pub use time_wait_calls::tcp_c_time_wait;
pub use time_wait_calls::tcp_c_time_wait_abort;
pub use time_wait_calls::tcp_c_time_wait_arrive;
pub use time_wait_calls::tcp_c_time_wait_emit;
pub use time_wait_calls::tcp_c_time_wait_pending;
pub use time_wait_calls::tcp_c_time_wait_status;
pub use time_wait_calls::tcp_c_time_wait_timer;
pub use timing::tcp_c_timer;
pub use timing::tcp_c_timers;
pub use trains::tcp_c_emit_train;
pub use user::tcp_c_abort;
pub use user::tcp_c_acknowledge;
pub use user::tcp_c_close;
pub use user::tcp_c_connect;
pub use user::tcp_c_listen;
pub use user::tcp_c_receive;
pub use user::tcp_c_send;
pub use vouched::tcp_c_arrive_vouched;
pub use vouched::tcp_c_arrive_vouched_with_report;
