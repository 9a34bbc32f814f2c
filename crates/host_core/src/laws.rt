//! Laws of streams. Each is the contract of a function that does nothing when it runs. The calls in a body are laws that its proof uses.

ghost use Rattle.host_core.specs.Batch.{BatchIsItsCalls};
ghost use Rattle.host_core.specs.Saving.{TenantsAreRestored};
ghost use Rattle.host_core.specs.Laws.{UnrefusedAreServedAlone, CallsAreServedAlone, EachIsServedAloneUntilRefused};
ghost use Rattle.host_core.specs.Laws.{EachStretchIsServedAlone, SameFramesSameReplies, SameFramesSameOutput, NoContentEndsAStream};

/// A law, for a caller of `serve`. The contract of `serve` allows refusals of memory, both if the input ends (`done` of `ServesStream`) and
/// if `serve` stops with a fault (`fault`). The law: if each tenant gets replies that its own machine may give to its frames when memory
/// may be refused (`EachIsServedByItsMachine`), then each tenant whose flag of refused memory is clear after the last frame gets exactly
/// the replies that its machine gives without refusals, whatever was refused to others (`Noninterference`).
pub fn unrefused_are_served_alone()
    ensures { UnrefusedAreServedAlone }
{
    tenant::laws::clear_flag_means_alone();
}

/// A law about a sequence of calls of `Host::handle`, and of no other function, from any states of the tenants; the contract of
/// `Host::handle` is about one call. Each tenant gets replies that its machine may give to its own frames, as if there were no other
/// tenant; if no memory was refused to it, exactly those of its machine without refusals; and no test run faults. `serve` promises this of
/// a stream of frames; a program that calls `handle` itself has it from here.
pub fn calls_are_served_alone()
    ensures { CallsAreServedAlone }
{
    unrefused_are_served_alone();
}

/// A law, by which a later refusal of memory changes nothing in earlier replies. `calls_are_served_alone` is about all calls of
/// `Host::handle` in a sequence, this law about the first n, for any n: each tenant to which no memory has been refused until then has got
/// exactly the replies of its own machine, whatever is refused to others, or later to it.
pub fn each_is_served_alone_until_refused()
    ensures { EachIsServedAloneUntilRefused }
{
    calls_are_served_alone();
}

/// A law: in each stretch of consecutive calls of `Host::handle` in which no reply to a tenant has the status `NoMemory`, the replies to
/// this tenant are exactly those of its own machine without refusals, from its state at the stretch's beginning, whatever memory is refused
/// to others. It does not matter whether memory was refused to the tenant before the stretch. Only the replies to its own creations of maps
/// and loads can have this status: `tenant::laws::only_creations_and_loads_are_refused`.
pub fn each_stretch_is_served_alone()
    ensures { EachStretchIsServedAlone }
{
    calls_are_served_alone();
    tenant::laws::unrefused_replies_mean_alone();
}

/// A law: if a tenant has the same state at the start of two streams, and the same frames in both, it gets the same replies in both, if
/// neither refuses memory to it, whatever frames of others lie between its own. So it can't observe the frames of other tenants. The law
/// assumes `Noninterference` of both streams, which `serve` promises unless its writer fails.
pub fn same_frames_same_replies()
    ensures { SameFramesSameReplies }
{
    tenant::laws::one_reply_list();
}

/// A law, on which the replay of a recorded stream relies: two streams with the same frames get the same replies, and the same bytes of
/// output are written, whichever hosts serve them. The law assumes of both streams what `serve` promises unless its writer fails
/// (`ServesAlone`). Of each tenant to which one of the frames goes (`owner`), it assumes that the tenant has the same state at the
/// beginning of both streams, and that its flag of refused memory (`refused`) is clear at the end of both.
pub fn same_frames_same_output()
    ensures { SameFramesSameOutput }
{
    same_frames_same_replies();
}

/// A law, by which no tenant can end the stream of the others with the content of a frame. It assumes that the bytes of the reader are
/// known, no call of the reader or the writer fails, and `serve` gets the memory for its buffers. Then its result depends only on `limit`,
/// the most frames that its caller allows, on the number of frames, and on whether bytes follow them (`stream_result`): it is an error only
/// if any byte follows `limit` frames, or the input ends inside a frame.
pub fn no_content_ends_a_stream()
    ensures { NoContentEndsAStream }
{
    command_frames::laws::frames_in_front();
}

/// A law: a batch has the effect of the calls of `Host::handle` on the test-run frames of its packets, one after another, and the replies
/// to these frames have the results of the batch. So what is proved of a sequence of calls also holds if there are batches among the calls.
pub fn batch_is_its_calls()
    ensures { BatchIsItsCalls }
{}

/// A law, for a caller that has only a list of calls on a new host. After any calls of `Host::handle`, `Host::install` and
/// `Host::run_packets`, and of functions that change nothing, all parts of a save of a tenant, one after another, are frames of this
/// tenant. A new tenant to which no memory is refused succeeds at each of these frames, and then replies as the saved tenant does, while no
/// memory is refused. `Host::tenants_are_restored` promises this of any host, whatever calls it had.
pub fn tenants_are_restored()
    ensures { TenantsAreRestored }
{
    saving::laws::histories_are_restored();
    command_frames::laws::frames_have_owners();
    saving::laws::parts_are_whole();
}
