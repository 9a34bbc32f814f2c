//! Laws of the machine. Each law is the contract of a function that does nothing.

ghost use Rattle.tenant.specs.Batch.{BatchIsItsFrames, RefusedAsItsFrame, OneResultEach};
ghost use Rattle.tenant.specs.Laws.{OneCommandResult, OneReply, OneAlone, ClearFlagMeansNoRefusal, ClearFlagMeansAlone};
ghost use Rattle.tenant.specs.Laws.{RefusalsAreReported, OnlyCreationsAndLoadsAreRefused, UnrefusedRepliesMeanAlone, FaultsHaveNoPayload};

/// A law, from which the determinism of a tenant's machine follows (`one_reply`, `one_reply_list`): in a state, a command has at most one
/// result (status, payload and next state) if memory is refused to it, and at most one if it is not. For a load the proof needs a law of
/// `verifier` (`one_judgement`): with given objects of the open descriptors, the bytes of slots have at most one judgement. This is the
/// program that they spell, if it is accepted, or else their `Refusal`.
pub fn one_command_result()
    ensures { OneCommandResult }
{
    verifier::laws::one_judgement();
}

/// A law: the machine is deterministic, refusals of memory excepted. A tenant's state, a frame, and whether memory is refused to its
/// command determine the reply and the next state (`OneReply`). A tenant that is not served has no state: the frame determines the reply.
pub fn one_reply()
    ensures { OneReply }
{
    one_command_result();
}

/// A law: if no memory is refused (`IsServedAlone`), a tenant's state and its frames determine its replies and the state after them. By it
/// `host_core` shows that a tenant in the same state gets the same replies to the same frames, whatever frames others send
/// (`same_frames_same_replies`).
pub fn one_reply_list()
    ensures { OneAlone }
{
    one_reply();
}

/// A law about a result that the machine gives for a command (`Answers`), whether memory is refused to the command or not. If the tenant's
/// flag of refused memory (`refused`) is clear in the state after the command, the machine also gives this result if no memory is refused
/// to the command: a result that is due to a refusal sets the flag. No command clears the flag, so `clear_flag_means_alone` follows for all
/// frames of a tenant: if the flag is clear after the last frame, it is clear after each command.
pub fn clear_flag_means_no_refusal()
    ensures { ClearFlagMeansNoRefusal }
{}

/// A law about a tenant's frames and the replies to them, from any state on. Suppose that its machine may give these replies if memory may
/// be refused to any command (`AloneWithRefusals`), and that its flag of refused memory (`refused`) is clear after the last frame. Then the
/// machine also gives these replies, with the same last state, if no memory is refused (`IsServedAlone`): a refusal that changes a result
/// sets the flag, and no command clears it. `host_core` needs this for `unrefused_are_served_alone`.
pub fn clear_flag_means_alone()
    ensures { ClearFlagMeansAlone }
{}

/// A law about commands to which memory is refused. The creation of a map or the load of a program may then have the status `NoMemory`: a
/// result without payload, which only sets the tenant's flag of refused memory (`refused`). The machine gives any other result (status,
/// payload and next state) of such a command also if memory is not refused to the command. No other command, and none to which memory is
/// not refused, has the status `NoMemory` or changes the flag. So exactly the results that are due to a refusal have this status. In
/// particular a load whose program is rejected does not have this status, although the types of the codec's faults and of the verifier's
/// reasons have a value `Memory`. For the proof the body calls the laws by which no bytes have this fault (`no_memory` of
/// `at_most_one_fault`), and no program is rejected for this reason (`refused_by_a_rule`).
pub fn refusals_are_reported()
    ensures { RefusalsAreReported }
{
    insn_codec::laws::at_most_one_fault();
    verifier::laws::refused_by_a_rule();
}

/// A law about the reply of a tenant's machine to one frame, if memory is refused to its command or not: it has the status `NoMemory` only
/// if the frame is the creation of a map or the load of a program. So no other frame fails for lack of memory.
pub fn only_creations_and_loads_are_refused()
    ensures { OnlyCreationsAndLoadsAreRefused }
{}

/// A law about consecutive replies to a tenant, from any of its states on: if none of them has the status `NoMemory`, they are those of its
/// machine without refusals (`IsServedAlone`), even if its flag of refused memory (`refused`) was set before them. The flag is never
/// cleared, so after a refusal `clear_flag_means_alone` does not apply to later replies, and this law still does.
pub fn unrefused_replies_mean_alone()
    ensures { UnrefusedRepliesMeanAlone }
{}

/// A law: a reply of the machine with the status -14 (`BadAddress`), that of a test run that faults, has no payload. So a frame has only
/// one possible reply with this status. The clause `no_fault` of `SavableTenant::handle` and `SavableTenant::install` excludes only this
/// reply, which has no payload. From the clause and the law `Host::handle` and `Host::install` conclude that no reply has the status,
/// whatever its payload (`no_fault`).
pub fn faults_have_no_payload()
    ensures { FaultsHaveNoPayload }
{}

/// A law: a batch has the effect of the PROG_TEST_RUN frames of its packets, one after another. If the runs of the batch have certain
/// results and lead from one state to a second one, the machine replies to these frames with the results, each with status 0, and reaches
/// the second state. So a batch does nothing that frames do not do.
pub fn batch_is_its_frames()
    ensures { BatchIsItsFrames }
{}

/// A law: if a run of a batch on a packet has an error (`run_refusal`), the test-run command of the packet has the same error, and changes
/// nothing. The error is `BadDescriptor` if the descriptor is not open, `Invalid` if it names a map, and else `TooBig` if the packet has
/// more than `LONGEST_PACKET` bytes. So a run in a batch is rejected with the status that the reply to its frame would have.
pub fn refused_as_its_frame()
    ensures { RefusedAsItsFrame }
{}

/// A law: a batch has as many results as packets. If test runs of a program on a list of packets succeed one after another with a list of
/// results (`RunsInOrder`), both lists have equal lengths. The contract of `Tenant::run_packets` has only that such a list is written, not
/// its length.
pub fn one_result_each()
    ensures { OneResultEach }
{}
