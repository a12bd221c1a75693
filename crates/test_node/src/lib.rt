//! What the program that plays scripts on the node of one member needs besides the node: the words of its calls, and
//! what they answer, for whatever stands on a [`Seat`]. Events and replies stand as the bytes that spell them.
//!
//! - `reset node SCHEME N ME EPOCH L K STALL RETENTION LEADER CERTIFICATION RETRY SKIP BUDGET FORWARD TRACK HANDOFFS`:
//!   a member (ME, `-` for one without a key) of a committee of N with an empty disk, not open. SCHEME is `plain` or
//!   `salted`; terms have L views, K of them optimistic; members lead in turn, a term each; times are milliseconds, `-`
//!   for a STALL or SKIP that never comes; BUDGET is how many terms may be skipped, `-` for as many as there are members;
//!   FORWARD is `disabled`, `silent-voters` or `silent-leader`; HANDOFFS is 1: no node goes without. Behind it may stand `AGAIN
//!   WINDOW`: `once`, as where nothing does, or `with-nullify`; and for how many views to leave behind others are asked at once, `-`
//!   for all. `reset pair ..`: the same with two empty disks
//! - `floor FLOOR`: what the openings start from that come, `genesis PAYLOAD`, as without this call that of zeros, or
//!   `finalization CERTIFICATE`, or `spelled BYTES`
//! - `open NOW`: closes the node that is open, opens the disk, and tells the first actions as a reply, or `fault NUMBER`,
//!   behind it what else is told: of a configuration and of what it starts from the number of the fault, of an artifact its
//!   place or position
//! - `event EVENT`: the reply, or `fault NUMBER`; `times COUNT event EVENT`: so many times, and what is answered each time
//!   where that is the same, else `changes`; `stream EVENTS`: the replies to so many events, one behind the other, read and
//!   written as streams, and behind them `bad PLACE` where no event stands at that byte, or `fault NUMBER`
//! - `rewrite`: of the node that is open the view that its record begins behind then, `-` where nothing was rewritten, or
//!   `fault NUMBER`
//! - `live NOW EVENTS NOW EVENTS ..`: closes the node that is open, and opens the disk at each NOW in turn with so many events, in
//!   one call; of each opening its first actions as a reply and the replies, one behind the other, and behind them `fault NUMBER`
//!   where a step failed, or what `open` answers where it failed. It leaves no node open
//! - of the node that is open `current_view`, `last_finalized`, `is_failed`
//! - `bytes`: closes the node that is open, and tells what the disk holds, or each of both; `disk BYTES`: closes it, and puts a
//!   disk that holds these in the place of its own; `disk BYTES BYTES`: two, which `open` opens both; while no node is open
//!   `fuse CALLS` and `fail_at CALLS`: calls of the disk fail; `fuse DISK CALLS` and `fail_at DISK CALLS`: those of the first of two,
//!   1, or of the second, 2
//!
//! Where memory runs out in the node, that is a fault like any other, and the script goes on; where it runs out for the words of
//! a call or of an answer, the script ends.
#![tactic(auto)]

mod desk;
mod faults;
mod lives;
mod medium;
mod member;
mod seat;
mod setup;
mod spelling;
mod starting;
mod turns;

pub use desk::play_on;
pub use medium::Medium;
pub use member::{Answers, Member};
pub use seat::{Life, Seat, Told};
pub use setup::Setup;
pub use turns::Turns;
