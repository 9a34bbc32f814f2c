//! Laws of states that are alike, of the order of births, and of the commands that restore a state. States are alike if they differ
//! only in the handles of their maps and in the flag of refused memory. Each law is the contract of a function that does nothing.

ghost use Rattle.saving.specs.SaveParts.{PartsAreWhole};
ghost use Rattle.saving.specs.Laws.{MapsAreHeld, AlikeIsBisimulation, AlikeStatesReplyAlike, BirthsAreKept, RestorableIsKept};
ghost use Rattle.saving.specs.Laws.{RestoredIsAlike, TestRunsHaveFrames, RestoredByFrames, HistoriesAreRestored};

/// A law about the maps of a tenant, a part of the invariant of `SavableTenant`; `births_are_kept` has the part about births. In each state
/// of a tenant the list of maps has one at a handle exactly if a descriptor names this map, or names a program that has a reference to it
/// (`HoldsItsMaps`): no other map is kept, and none of these is missing. This holds for a new tenant (`new`), and each command preserves
/// it, whether memory is refused to the command or not (`kept`).
pub fn maps_are_held()
    ensures { MapsAreHeld }
{}

/// A law: being alike is a bisimulation. States are alike if they differ only in the handles of their maps and in the flag of refused
/// memory. Take two alike states, and a result that the first can give a command. Then the second can give the command a result with equal
/// status and payload, and the states after the two results are alike. This holds if memory is refused to the command in both states, and
/// if it is in neither. So no command distinguishes them. The law is about states in which exactly the maps of open objects are live
/// (`HoldsItsMaps`), as in all that a tenant reaches (`maps_are_held`).
pub fn alike_is_bisimulation()
    ensures { AlikeIsBisimulation }
{}

/// A law about two states that are alike: they differ only in the handles of their maps and in the flag of refused memory. A tenant in the
/// second state can give to a list of frames each list of replies that a tenant in the first can give. This holds if no memory is refused,
/// and if it may be. If none is refused, the tenant in the second can give no other replies. In both states exactly the maps that an open
/// object names are live, as in each state that a tenant reaches (`maps_are_held`). So a tenant whose state is alike to a saved one replies
/// as the saved one would. The body calls laws, for the proof.
pub fn alike_states_reply_alike()
    ensures { AlikeStatesReplyAlike }
{
    tenant::laws::one_reply_list();
    maps_are_held();
    alike_is_bisimulation();
}

/// A law, the half of the invariant of `SavableTenant` about births. A birth has the descriptor at which a map was created, or a program
/// loaded. The births of a state are those of its live maps and open programs, listed with the latest first (`AreBirths`). A new tenant has
/// none (`new`). Take a state in which exactly the maps that an open object names are live (`HoldsItsMaps`). From the list of its births,
/// `births_after` makes the list of the births of the state after a command (`kept`). A list has at most `MOST_BIRTHS` births (`few`), so
/// the room that `Births::new` allocates is enough. The body calls the law `maps_are_held`, the other half of the invariant, for the proof:
/// by it `HoldsItsMaps` also holds after the command.
pub fn births_are_kept()
    ensures { BirthsAreKept }
{
    maps_are_held();
}

/// A law: the precondition of restoring a state (`IsRestorable`) holds for a new tenant, and each command preserves it, with memory refused
/// or not. So each state that a tenant reaches can be restored: exactly the maps of open objects are live, their areas fit into the
/// tenant's part, a creation and updates can make each map again, and each program was accepted with the shapes of its maps. The body calls
/// laws, for the proof.
pub fn restorable_is_kept()
    ensures { RestorableIsKept }
{
    maps_are_held();
    verifier::laws::loaded_maps_have_shapes();
}

/// A law about the commands that restore a state `s` by the list of its births (`restored`). Suppose that `s` can be restored
/// (`IsRestorable`): exactly the maps that an open object of `s` names are live, their areas fit into the tenant's part, a creation and
/// updates can make each map again, and each program was accepted with the shapes of its maps. Then a new tenant to which no memory is
/// refused succeeds at each of these commands. Its state after them is alike to `s` (`IsAlike`): it differs at most in the handles of maps
/// and in the flag of refused memory. In it, too, exactly the maps that an open object names are live. The law about the frames of these
/// commands, `restored_by_frames`, follows from this law. The body calls laws, for the proof.
pub fn restored_is_alike()
    ensures { RestoredIsAlike }
{
    maps_are_held();
    alike_is_bisimulation();
    verifier::laws::maps_are_listed();
}

/// A law: each test run has a frame, which is parsed as this test run, if its descriptor is below 2^32 and its input fits (`FitsFrame`):
/// `GIVEN_WORDS` context words, each below 2^32, and a packet of at most `LONGEST_PACKET` bytes. So each run of a batch has a frame, too,
/// although the batch comes by a call and not as frames.
pub fn test_runs_have_frames()
    ensures { TestRunsHaveFrames }
{
    command_frames::laws::encoding_inverts_parsing();
}

/// A law about the frames that restore a state by the list of its births. If the state can be restored (`IsRestorable`: exactly the maps of
/// its open objects are live, their areas have at most `LARGEST_SUM` bytes together, and each map and program can be created again), a new
/// tenant to which no memory is refused succeeds at each of these frames. The new tenant's state is then alike (`IsAlike`): equal but for
/// the handles of maps and the flag of refused memory. `restored_is_alike` is the law about the commands in the frames.
pub fn restored_by_frames()
    ensures { RestoredByFrames }
{
    command_frames::laws::encoding_inverts_parsing();
    restored_is_alike();
}

/// A law, which is the purpose of a save: each state that a tenant reaches is restored. A new tenant executes any commands, to some of
/// which memory may be refused. Then another new tenant, to which no memory is refused, succeeds at each of the frames that restore the
/// state of the first. From then on both tenants give equal replies to equal frames, while no memory is refused to either. The law follows
/// from the four in the body.
pub fn histories_are_restored()
    ensures { HistoriesAreRestored }
{
    births_are_kept();
    restorable_is_kept();
    restored_by_frames();
    alike_states_reply_alike();
}

/// A law: for any state of a tenant and any births, all parts of a save (`parts`), one after another, are the commands that restore the
/// state (`restored`). A part is a list of commands. So a save may be made part by part.
pub fn parts_are_whole()
    ensures { PartsAreWhole }
{}
