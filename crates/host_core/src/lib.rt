//! The host of all tenants: frames in, replies out.
//!
//! # What is proved
//!
//! Contracts see a `Host` as the list of its tenants' states and the list of the births of their objects (`HostState`). The
//! clauses of `serve` are the fields of `ServesStream`, and concern the states.
//!
//! Replies:
//!
//! - A frame gets the reply of one step of its tenant's machine, or the error of a frame without a head or of a tenant that is
//!   not served: `own` of `Host::handle`.
//! - Every other tenant is unchanged: `others`, `count` of `Host::handle`.
//! - No reply has the status of a fault: `no_fault` of `Host::handle`.
//! - While no memory is refused to a tenant, the replies to it are exactly those of its own machine on its own frames, in their
//!   order, and no test run faults. This holds if the input ends after a whole frame or inside one, and for every other fault
//!   except a fault of the writer, which cuts a reply: `alone`, `alone_before` of `serve`.
//! - Over a whole stream, or the part of it that was read, the replies to each tenant are ones that its own machine may give to
//!   its own frames, whatever memory is refused: `done`, `fault` of `serve`. For each tenant whose flag is clear they are those
//!   of its machine without refusals: `unrefused_are_served_alone`.
//! - `serve` handles its frames one after another, and there are states of all tenants after each of them (`HandlesInOrder`):
//!   `done`, `fault` of `serve`. After each of these turns, each tenant whose flag is then clear got exactly the replies of its
//!   own machine, whatever is refused to it later: `each_is_served_alone_until_refused`.
//! - In each stretch of these turns in which no reply to a tenant has the status -12, the replies to it are exactly those of
//!   its own machine from the state that it has at the beginning, whether its flag is set or not, and whatever is refused to
//!   others: `each_stretch_is_served_alone`. Only its own MAP_CREATE and PROG_LOAD can have that status
//!   (`only_creations_and_loads_are_refused` of `tenant`).
//! - Both also hold for a sequence of calls of `Host::handle` without a stream, and no test run faults: `calls_are_served_alone`.
//! - `serve_new_host` promises the same of a stream that a new host serves, from the states of new tenants.
//! - A caller can ask whether a tenant's flag is set: `refused`, `unrefused` of `Host::memory_was_refused`. How much a tenant has, what
//!   a descriptor of it names, what a program of it costs, and all descriptors as the verifier sees them are what its state says:
//!   `Host::counts`, `Host::describe`, `Host::program_cost`, `Host::targets`.
//! - Two streams that agree on a tenant's initial state and on its frames give it the same replies, if neither refuses memory
//!   to it: `same_frames_same_replies`.
//! - Two streams with the same frames have the same replies, and the same bytes are written, whatever hosts serve them, if each
//!   tenant of these frames starts in the same state in both and neither refuses memory to it: `same_frames_same_output`.
//!   Replaying a recorded stream relies on this.
//! - No content of a frame ends a stream. If the bytes of the reader are known, no call fails and there is memory for the
//!   buffers, the end of the call depends only on the number of frames and on whether bytes follow them:
//!   `no_content_ends_a_stream`.
//!
//! Input and output:
//!
//! - What was written is flushed before more is read: if everything was flushed before a call, then all replies are flushed at
//!   each of its ends except a fault of the writer. See `flushed`, `flushed_before` of `serve`; `flushed` of `write_whole`.
//! - The replies are written in the order of the frames. If a write fails, whole replies and a prefix of the next were written,
//!   and nothing after the frame of that reply was read, whichever call of the writer failed; so each reply is written whole
//!   before the next frame is read: `fault` of `serve`.
//! - Ok means that the input ended before a frame, and has the number of replies: `done` of `serve`.
//! - Read and Write mean that a call of the reader or the writer failed; Truncated, that the input ended inside a frame, before
//!   the limit; TooManyFrames, that the limit was reached and one further byte was read; Memory, that nothing was read:
//!   `fault`, `cut_before`, `too_many` of `serve`.
//! - A buffer is filled unless the input ends or a call fails; bytes are written whole unless a call fails. A failure leaves a
//!   prefix of them: `fill`, `write_whole`.
//!
//! Statements about bytes concern readers and writers whose bytes contracts see, such as those over memory. For a file or a
//! pipe, a contract only says that as many frames as are counted got replies by the machines, not that they are those on the
//! pipe; docs/TRUST.md has the argument for that.
//!
//! Batches:
//!
//! - `Host::run_packets` runs a program of one tenant on many packets, one after another, all with the same context words or each
//!   with its own. Results and state are those of the test-run commands in this order; the rest of the result buffer and the
//!   states of the other tenants are unchanged: `runs`, `tenant` of `Host::run_packets`.
//! - Or the batch is rejected before its first packet, with the first error that applies: the tenant is not served, or an error
//!   of the tenant. Then nothing has changed: `refusal`, `unchanged` of `Host::run_packets`.
//! - How many packets a bound on executed instructions allows a batch follows from the cost of the program: `allowed`, `few` of
//!   `Host::allowed_packets`.
//! - The runs of a batch are calls of `Host::handle` on the test-run frames of its packets. So what holds for a sequence of
//!   calls holds if some of them are batches, and no run of a batch faults: `batch_is_its_calls`. These frames exist:
//!   `test_runs_have_frames` of `saving`.
//!
//! Programs that were verified elsewhere:
//!
//! - To install one is the call of `Host::handle` on the frame that loads it, with the status of its reply, which has no payload. So
//!   what holds for a sequence of calls holds if some of them are installations: `loaded` of `Host::install`.
//! - Or a descriptor of its maps names no map of the shape with which it was accepted. Then it is given back, and nothing has changed:
//!   `stale`, `fits` of `Host::install`.
//!
//! Saves:
//!
//! - A new host has new tenants without births: `Host::new`.
//! - The births of a frame's tenant change as its command says, and no others do: `recorded` of `Host::handle`. A batch changes
//!   none: `births` of `Host::run_packets`.
//! - The bytes of a part of a tenant are the frames of the commands of this part, each with its length before it. There are none
//!   after the last part, and for a tenant that is not served. Nothing changes: `Host::save`.
//! - Each tenant of a host, whatever calls it had, `serve` included, and whatever memory was refused, has a history: this is an
//!   invariant of `Host` (`AreReached`). So the parts of each tenant one after another are frames of this tenant, each with its
//!   length before it. A new tenant to which no memory is refused succeeds at each of these frames, and then gives each list of
//!   frames exactly the replies of the saved one, while no memory is refused: `Host::tenants_are_restored`.
//!
//! # Decisions
//!
//! - A host is seen as the list of its tenants' states, with the births of their objects in a second list, so what concerns
//!   replies cites the states only. Each state is made of what is kept of the tenant and of the bytes of its part, so no
//!   contract of the host names the arena.
//! - A save is no command of the protocol: the owner of the host requests it, not a tenant.
//! - Two relations define the replies to each tenant: one allows refused memory and holds whenever a call of `serve` ends; the
//!   other has no refusals and holds for each tenant whose flag is clear. The second follows from the first by the law
//!   `unrefused_are_served_alone`, and has clauses of its own in `serve`, so that it can be read without the first. If a write
//!   fails, a reply is cut, and the second relation follows from `fault` by the law.
//! - The clauses of `serve` are the fields of one record, `ServesStream`: the states before and after a call occur once in its
//!   contract, and each field relates the two.
//! - A tenant number that is not served has no state; the same definitions give its replies, which depend only on the frame.
//! - The host reads only the tenant of a frame. It rejects a frame without a head, or of a tenant that is not served (status
//!   -1, whatever its length; the frame is still skipped as a whole). The tenant rejects a frame that is too long, has an
//!   unknown command or a wrong body.
//! - The reply to a frame that is too long depends only on its head, so the host keeps the head and skips the rest.
//! - Every error of a reader or a writer ends the stream, an interruption too, and so does a write that accepts no byte.
//! - Input is buffered; a reply is one write if the writer accepts it whole, and it is flushed before the next frame is read.
//!   This is part of the contract: a `Sink` reports whether everything is flushed. The reader can fail in any call, so the
//!   clause holds before each read.
//! - `serve` allocates its buffers once. After that only these commands allocate: a load (the program, copied once, and what is
//!   missing in the host's memory for verdicts), and the creation of a hash map (room for its keys and elements).
//! - The loads of all tenants are verified in one memory of the host's, at most 5.1 MB, which stays from one load to the next. No
//!   contract names what is in it, so no reply depends on it, unless memory is refused.
//! - All parts of the arena are zeroed when the host starts, since the library has no zeroed allocation with pages on demand.
//!   An idle host has 2.0 MB of resident memory for 1 tenant, 5.9 for 16 and 18.8 for 64, and starts in 1.4, 4.6 and 19
//!   milliseconds. After that an idle tenant costs no time. The cost of a frame depends on its own key and value, not on the
//!   longest key.
//! - `AllocError` of std is the error of a call that can only run out of memory.
//! - The crate is named `host_core` and the command line above it `host`, which re-exports it, because callers use the names
//!   `host::serve` and `host::Host`.
#![tactic(auto)]

mod contract_clients;
mod host;
mod inspection;
mod installing;
pub mod laws;
mod reading;
mod server;
mod stream;
mod writing;

pub use command_frames::{GIVEN_WORDS, LONGEST_REPLY, ReplyBuf};
pub use host::{Host, MOST_TENANTS};
pub use reading::fill;
pub use seeded_hash::HashSeed;
pub use server::{MOST_FRAMES, ServeFault, ServeFaultKind, serve, serve_new_host};
pub use stream::{Counted, Sink, Source};
pub use tenant::{Counts, Described, Errno, MAP_THERE, NOTHING_THERE, PROGRAM_THERE};
pub use writing::write_whole;
