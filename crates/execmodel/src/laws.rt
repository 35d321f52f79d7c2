//! Laws of whole runs and of words: functions without effect whose contracts say what the definitions amount to.
ghost use Rattle.std.specs.Prelude.{◌≡◌, true, List};
ghost use Rattle.script.specs.declared.event.Event.{Event};
ghost use Rattle.execmodel.specs.Keeping.{PlainWordsChangeScripts, SignalWordsChangeSignalsAndStates, NestingWordsChangeNestings, TaskWordsChangeStatesPrioritiesAndObjects, ListWordsChangeTheMemory, MemoryWordsChangeTheMemory, PortWordsChangePortsSignalsAndStates, SemaphoreWordsChangeStatesAndObjects, InterruptWordsChangeWhatIsCaused, LibraryWordsChangeTheMemory, RequestWordsChangeRequestsPortsSignalsAndStates};
ghost use Rattle.execmodel.specs.Laws.{FirstInFirstOut, EachByteHasOneOwner, FreeMemRefusesObjects, OwnersChangeAtTheLastRelease, FreeSemaphoresHaveNoWaiters, SemaphoresPassInOrder, QueuesAgreeWithTheSchedule, EachStateIsSettled, SwitchesGoToTheChosen, EachSwitchLineIsAChoice, OnlySwitchesSaySo, WaitersHaveReceivedNone, ReceivedSignalsStay, InterruptsKeepNestings, ThreeServingsAtMost, OpenLibrariesStay, LibrariesHaveOneBase, LibrariesAreAskedInVersionTwo, UnaskedMemoryStays, AskingChangesTheBlocks, ReplyPortsLive, RequestsUnderWayWait, TheClockCountsTicks, SystemTimeGoesWithTheClock, CallsFitTheirWords, LinesAreShort, LibrariesGiveWayAsFarAsNeeded, OnlyClosedLibrariesGiveWay};
ghost use Rattle.execmodel.specs.OtherBlocks.{ListWordsLeaveOtherBlocks, LibraryWordsLeaveOtherBlocks, MemoryWordsLeaveOtherBlocks, PortWordsLeaveOtherBlocks, RequestWordsLeaveOtherBlocks, SemaphoreWordsLeaveOtherBlocks, TaskWordsLeaveOtherBlocks};
ghost use Rattle.execmodel.specs.VersionOne.{UnaskedWordsTakeMemoryAsItIs, VersionOneTakesMemoryAsItIs, UnaskedLibrariesStay};
ghost use Rattle.execmodel.specs.{State.State, State.Outcome, State.quiet, State.andthen, State.unless_stopped, Step.event, Step.events};

/// After an alert no event does anything: the state stays as it is, no line is printed and no mark is left. If an alert
/// comes between two parts of an action, as in the midst of a body or of a settle, the second part does nothing.
#[tactic(auto, using(crate::proofs::Stopped::event_stopped, crate::proofs::Stopped::events_stopped, crate::proofs::Stopped::stopped_between))]
pub fn an_alert_ends_all()
    ensures event { (e : Event) (s : State) → s.stopped ≡ true → event e s ≡ quiet s }
    ensures events { (list : List Event) (s : State) → s.stopped ≡ true → events list s ≡ quiet s }
    ensures between { (first next : State → Outcome) (s : State) → (first s).state.stopped ≡ true
        → andthen first (unless_stopped next) s ≡ first s }
{}

/// The words of a group change their part of the state, and leave all else as it is. Of what the tasks execute each
/// word changes the shared variables and the caller's progress alone (its place, its variables and the call that it
/// waits in), and plain words change nothing else. Words of signals change signals and which tasks are ready, running
/// or waiting; words of nesting the nestings; words of lists, memory and libraries the blocks of memory and the objects
/// in them; words of ports these, which ports are public, signals, which tasks are ready, running or waiting, and which
/// software interrupts are caused; words of semaphores the objects and which tasks are ready, running or waiting, words
/// of tasks these and the priorities, and words of interrupts which software interrupts are caused; words of requests
/// the objects, which requests wait for the timer, system time, signals, which tasks are ready, running or waiting, and
/// which software interrupts are caused, but neither the clock nor which ports are public. An alert stops the machine.
/// Of the blocks, in every state of every run, the words of a group leave each as it is whose object is of another
/// kind, but for libraries that are asked for memory: words of libraries each that is not a library's, words of lists
/// each that holds neither a list nor a node, words of memory each that holds no plain block, words of ports each that
/// holds neither a port nor a message, words of semaphores each that holds no semaphore, and words of requests, with
/// what finishes if one sets system time, each that holds neither a request nor a port. Words of tasks leave all
/// blocks, libraries too, and place none: of a semaphore they change only which tasks wait for it.
#[tactic(auto, using(crate::proofs::Words::plain_words_change_scripts, crate::proofs::Words::signal_words_change_signals_and_states, crate::proofs::Words::nesting_words_change_nestings, crate::proofs::Words::task_words_change_states_priorities_and_objects, crate::proofs::Words::list_words_change_the_memory, crate::proofs::Words::memory_words_change_the_memory, crate::proofs::Words::port_words_change_ports_signals_and_states, crate::proofs::Words::semaphore_words_change_states_and_objects, crate::proofs::Words::interrupt_words_change_what_is_caused, crate::proofs::Words::library_words_change_the_memory, crate::proofs::Words::request_words_change_requests_ports_signals_and_states, crate::proofs::OtherLists::list_words_leave_other_blocks, crate::proofs::OtherBlocks::library_words_leave_other_blocks, crate::proofs::OtherBlocks::memory_words_leave_other_blocks, crate::proofs::OtherPorts::port_words_leave_other_blocks, crate::proofs::OtherRequests::request_words_leave_other_blocks, crate::proofs::OtherSemaphores::semaphore_words_leave_other_blocks, crate::proofs::OtherTasks::task_words_leave_other_blocks))]
pub fn each_group_keeps_to_its_part()
    ensures plain { PlainWordsChangeScripts }
    ensures signals { SignalWordsChangeSignalsAndStates }
    ensures nesting { NestingWordsChangeNestings }
    ensures tasks { TaskWordsChangeStatesPrioritiesAndObjects }
    ensures lists { ListWordsChangeTheMemory }
    ensures memory { MemoryWordsChangeTheMemory }
    ensures ports { PortWordsChangePortsSignalsAndStates }
    ensures semaphores { SemaphoreWordsChangeStatesAndObjects }
    ensures interrupts { InterruptWordsChangeWhatIsCaused }
    ensures libraries { LibraryWordsChangeTheMemory }
    ensures requests { RequestWordsChangeRequestsPortsSignalsAndStates }
    ensures blocks_of_lists { ListWordsLeaveOtherBlocks }
    ensures blocks_of_libraries { LibraryWordsLeaveOtherBlocks }
    ensures blocks_of_memory { MemoryWordsLeaveOtherBlocks }
    ensures blocks_of_ports { PortWordsLeaveOtherBlocks }
    ensures blocks_of_semaphores { SemaphoreWordsLeaveOtherBlocks }
    ensures blocks_of_tasks { TaskWordsLeaveOtherBlocks }
    ensures blocks_of_requests { RequestWordsLeaveOtherBlocks }
{}

/// Messages leave a port in the order in which they came: over every stretch of every run, the messages that the port
/// had at first and those that were put there, less each that was then taken out, are those that GetMsg answered, in
/// order, followed by those that the port has at last. The reply of a request is such a message: it is put when the
/// request finishes, and WaitIO and DoIO take it out.
///
/// Source: RKM Libraries, Exec Messages and Ports; RKM Devices, Introduction to Amiga System Devices.
#[tactic(auto, using(crate::proofs::FifoLaw::first_in_first_out))]
pub fn fifo()
    ensures { FirstInFirstOut }
{}

/// Each byte has one owner: in every state of every run each unit of 8 bytes of a region lies in exactly one block or
/// gap, and their sizes add up to the region's. An object begins at a block of its own, which FreeMem refuses.
///
/// Source: RKM Libraries, Exec Memory Allocation.
#[tactic(auto, using(crate::proofs::OneOwner::each_byte_has_one_owner, crate::proofs::OneOwner::free_mem_refuses_objects))]
pub fn one_owner()
    ensures tiles { EachByteHasOneOwner }
    ensures refuses { FreeMemRefusesObjects }
{}

/// A semaphore excludes: its owner changes only from none, or at the release that brings its count to zero; nobody
/// waits for one that no task owns; and tasks get it in the order in which they asked: over every stretch of every run,
/// the tasks that waited for it at first and those that began to wait, less each that was then removed, are those that
/// a release made the owner, in order, followed by those that wait at last.
///
/// Source: RKM Libraries, Exec Semaphores.
#[tactic(auto, using(crate::proofs::OwnersLaw::owners_change_at_the_last_release, crate::proofs::OwnersLaw::free_semaphores_have_no_waiters, crate::proofs::WaitingLaw::semaphores_pass_in_order))]
pub fn exclusion()
    ensures owners { OwnersChangeAtTheLastRelease }
    ensures idle { FreeSemaphoresHaveNoWaiters }
    ensures order { SemaphoresPassInOrder }
{}

/// The queues agree with the schedule: in every state of every run exactly the running task has the state Running,
/// exactly the ready tasks are in the ready sequence, each once, and exactly those that wait for a semaphore are in the
/// queue of one, each once and in no other.
///
/// Source: RKM Libraries, Exec Tasks: task states.
pub fn agreement()
    ensures { QueuesAgreeWithTheSchedule }
{}

/// After the start and after each step, tick and request of every run, unless an alert stopped the machine: if no task
/// runs none is ready; if switching is allowed no ready task has a higher priority than the running one; and a request
/// is left only if interrupts are not allowed. A switch to a task is to the earliest among those of highest priority,
/// of the ready tasks and the one that ran until then, which comes last; and a task that runs leaves for one of its own
/// priority only if its quantum has ended. Nothing else says that a switch is made.
///
/// Source: RKM Libraries, Exec Tasks: task scheduling.
#[tactic(auto, using(crate::proofs::Settled::each_state_is_settled, crate::proofs::Switching::switches_go_to_the_chosen, crate::proofs::LinesOfBodies::only_switches_say_so))]
pub fn priority()
    ensures settled { EachStateIsSettled }
    ensures switched { SwitchesGoToTheChosen }
    ensures only { OnlySwitchesSaySo }
{}

/// Each line of a switch to a task in the text of a run is said by the switch of the run's start, or of a step, a tick
/// or a request in a state that the run comes to. Of each such switch `priority` says that it goes to the chosen task.
///
/// RKM Libraries, Exec Tasks: task scheduling.
pub fn switch_lines()
    ensures { EachSwitchLineIsAChoice }
{}

/// No signal is lost: in every state of every run a task that waits for signals has received none of them; and a signal
/// that a task has received stays received, unless in this step it makes a call by which a task takes, sets or clears
/// signals of its own.
///
/// Source: RKM Libraries, Exec Signals.
#[tactic(auto, using(crate::proofs::Received::waiters_have_received_none, crate::proofs::Received::received_signals_stay))]
pub fn no_lost_signal()
    ensures none { WaitersHaveReceivedNone }
    ensures stay { ReceivedSignalsStay }
{}

/// Interrupts leave the tasks' nestings as they are: neither the body of a software interrupt nor that of a server
/// changes how a task has nested Forbid and Disable. One settle serves three times at most.
///
/// Source: RKM Libraries, Exec Interrupts.
#[tactic(auto, using(crate::proofs::Servings::interrupts_keep_nestings, crate::proofs::Servings::three_servings_at_most))]
pub fn interrupts()
    ensures nestings { InterruptsKeepNestings }
    ensures servings { ThreeServingsAtMost }
{}

/// An open library stays: whatever a step, a tick or a request does, a library that is open keeps its base, its number
/// and the block that it lies in, of the same size, unless the running task in this step closes it for the last time
/// and it was to be expunged then. So no interrupt and no other call takes away an open library.
///
/// Source: RKM Libraries, Exec Libraries.
#[tactic(auto, using(crate::proofs::Libraries::open_libraries_stay))]
pub fn open_stays()
    ensures { OpenLibrariesStay }
{}

/// A loaded library is at one base only: in every state of every run, two bases of one library are the same.
///
/// RKM Libraries, Exec Libraries.
#[tactic(auto, using(crate::proofs::OneBase::libraries_have_one_base))]
pub fn libraries_have_one_base()
    ensures { LibrariesHaveOneBase }
{}

/// In version 1 of the rules no library is asked for memory. In every state of every run libraries are asked exactly if
/// the machine is of version 2. If they are not, what asks them before a word takes memory changes nothing, and each
/// word that takes memory takes it as it is: one equation for each of these words, in every state of a run of version
/// 1. And whatever a step, a tick or a request does, a loaded library stays as it is, open or not: at its base, in its
/// block, as often open, and to be expunged or not, unless the running task in this step opens, closes or removes that
/// library; then it is open once more, once less or as often, or is expunged: removed while it is not open, or closed
/// for the last time when it was to be expunged then. In any version asking changes the blocks and the objects in them
/// alone, and nothing if the block has a place already.
#[tactic(auto, using(crate::proofs::Versions::libraries_are_asked_in_version_two, crate::proofs::Versions::unasked_memory_stays, crate::proofs::UnaskedLibraries::unasked_libraries_stay, crate::proofs::Versions::asking_changes_the_blocks))]
pub fn version_one()
    ensures asked { LibrariesAreAskedInVersionTwo }
    ensures unasked { UnaskedMemoryStays }
    ensures words { UnaskedWordsTakeMemoryAsItIs }
    ensures runs { VersionOneTakesMemoryAsItIs }
    ensures stay { UnaskedLibrariesStay }
    ensures beside { AskingChangesTheBlocks }
{}

/// Libraries are asked for memory as far as a block needs it, and no further: if libraries are asked for a block, the
/// first ones of the file are asked for memory, one after another, no fewer would have been enough, and after that the
/// block has a place, or all of them were asked for memory. In every state of every run, asking frees no block but
/// those of libraries that are not open: what is not a library stays as it is, and an open library stays at its base,
/// in its block and as often open.
///
/// Source: autodoc exec.library/AllocMem; the order of asking: project rule.
#[tactic(auto, using(crate::proofs::LowMemoryLaw::libraries_give_way_as_far_as_needed, crate::proofs::LowMemoryLaw::only_closed_libraries_give_way))]
pub fn libraries_give_way()
    ensures needed { LibrariesGiveWayAsFarAsNeeded }
    ensures closed { OnlyClosedLibrariesGiveWay }
{}

/// The reply port of a request that is in progress lives, in every state of every run: so whatever finishes the
/// request, a tick, a setting of system time or AbortIO, finds the port where the reply is to be put. No port at which
/// a request in progress is to be replied is deleted.
///
/// Source: RKM Devices, Introduction to Amiga System Devices; that the port may not be deleted: project rule.
#[tactic(auto, using(crate::proofs::RequestsLaw::reply_ports_live))]
pub fn reply_ports_live()
    ensures { ReplyPortsLive }
{}

/// Exactly the requests that are in progress wait for the timer, each once, in every state of every run: none is
/// forgotten, and none finishes twice.
///
/// Source: RKM Devices, Timer Device.
#[tactic(auto, using(crate::proofs::RequestsLaw::requests_under_way_wait))]
pub fn requests_under_way_wait()
    ensures { RequestsUnderWayWait }
{}

/// The clock is the number of ticks times what it gains at each, in every state of every run, also under Disable:
/// nothing else moves it. After an alert it is still.
///
/// Source: RKM Devices, Timer Device; that the clock begins at 0 and counts under Disable too: project rule.
#[tactic(auto, using(crate::proofs::ClockLaw::the_clock_counts_ticks))]
pub fn the_clock_counts_ticks()
    ensures { TheClockCountsTicks }
{}

/// System time goes with the clock: what it is ahead of it, or after it, stays in each step, tick and request of every
/// run, unless the running task in this step begins a request of the command TR_SETSYSTIME, by SendIO or DoIO; then
/// system time is the time of that request.
///
/// Source: RKM Devices, Timer Device; autodoc timer.device/TR_SETSYSTIME; that system time begins with the clock:
/// project rule.
#[tactic(auto, using(crate::proofs::SystemLaw::system_time_goes_with_the_clock))]
pub fn system_time_goes_with_the_clock()
    ensures { SystemTimeGoesWithTheClock }
{}

/// No line is long: each line of every run has at most 160 bytes, its line feed included. A name has at most 31 bytes,
/// and a call has at most four arguments, of which at most one is a name.
#[tactic(auto, using(crate::proofs::LinesLaw::lines_are_short))]
pub fn lines_are_short()
    ensures { LinesAreShort }
{}

/// A call has the arguments of its word, one of each kind: in every state of every run so have the call that a task is
/// to make, one that it waits in too, and each call of the body of a software interrupt or of a server. If the word
/// asks for a value a value is, and if it asks for a name a name.
#[tactic(auto, using(crate::proofs::LinesLaw::calls_fit_their_words))]
pub fn calls_fit_their_words()
    ensures { CallsFitTheirWords }
{}
