//! Whole traces of small machines, and the marks that they leave, as the definitions compute them.
#![tactic(auto, unfolding(crate::proofs::OnLiterals::runs_on_literals))]

ghost use Rattle.execmodel.specs.Runs.{PrintsOnce, NothingFollowsAnAlert, SignalWakesAHigherTask, EqualPriorityDoesNotPreempt, APreemptedTaskArrivesAnew, AWaitKeepsItsMask, CalculatesAndJumps, ForbidKeepsOthersOff, AnEndedQuantumLetsAnEqualRun, TicksUnderDisableAreServedOnce, ALiveTaskIsFoundByItsName, SizesRoundUp, SuitableRegionsAreTriedByPriority, EqualsStandInOrderOfArrival, AListInUseIsNotFreed, EachKindHasItsPool, MessagesAreTakenInOrderOfArrival, MarksTellWhatCameAndWhatWasTaken, ThePublicPortOfGreatestPriorityIsFound, AReplyGoesToTheReplyPort, ASemaphoreIsHandedToTheFirstThatAsked, MarksTellWhoAskedAndWhoGotIt, ARemovedTaskLeavesTheQueue, MarksTellWhoAskedAndWhoLeft, WhereNoTaskWaitsThereIsNoMark, ASoftintRunsBeforeTheNextCommand, ASoftintMayCauseItselfAgain, SoftintsRunOneAStepByPriority, ASoftintRunsWhereNoTaskRuns, ServersRunByPriorityUntilOneClaims, NoSwitchFollowsAnAlertInABody, NoIdleFollowsAnAlertInABody, NoCommandFollowsAnAlertInASoftint, APortMayCauseASoftint, MarksTellWhatASoftintTook, ARemovedLibraryGoesAtItsLastClose, AnOpeningTakesARemovalBack, LibrariesGiveWay, NoLibraryGivesWayInVersionOne, WhatWasMarkedInVainStaysSo, NothingIsMarkedInVersionOne, TheFirstFitEndsTheAsking, NothingIsAskedForWhatIsNeverTaken, ALibraryGivesWayToAnother, TheClockCountsUnderDisable, ATaskSleepsByDoIO, RequestsFinishByTheTimeWhenTheyAreDue, AStraySignalMakesDoIOLookAgain, AnAbortedRequestIsRepliedAtOnce, WaitIOTakesTheReply, MarksTellWhichReplyWasTaken, ARequestThatIsDueNowFinishes, RequestsOfOneTimeFinishInTheOrderOfBeginning, MicrosecondsCountBeyondASecond, AnAwaitedPortIsNotDeleted, TheTimerHasThreeUnits, SendIOClearsTheQuickBitAndTheError, ATaskWaitsUntilASystemTime, ATimeThatHasComeIsDoneAtOnce, ASettingWakesATask, TheSetterIsRepliedFirst, MarksTellThatTheSetterWasRepliedFirst, ASettingLeavesTheOtherUnitsAlone, ASettingBackFinishesNothing, RequestsOfOneMomentFinishInTheOrderOfBeginning, DisableDoesNotHoldASettingBack, AQuantumLastsItsServings, AReadyTaskArrivesAnew, AWaitTakesThoseOfItsMask, AnAttemptOfTheOwnerCounts, EachWordAsksForItsMemory};

/// A task that prints once ends at its next step, and the machine is idle.
pub fn a_task_prints_once_and_ends()
    ensures { PrintsOnce }
{}

/// An alert stops the machine for good.
pub fn nothing_follows_an_alert()
    ensures { NothingFollowsAnAlert }
{}

/// A task that waits is made ready by its signal, and runs at once if its priority is higher.
pub fn a_signal_wakes_a_higher_task()
    ensures { SignalWakesAHigherTask }
{}

/// A task that becomes ready does not take over from a running one of its own priority.
pub fn equal_priority_does_not_preempt()
    ensures { EqualPriorityDoesNotPreempt }
{}

/// A pre-empted task is after the ready ones of its priority.
pub fn a_preempted_task_arrives_anew()
    ensures { APreemptedTaskArrivesAnew }
{}

/// A call that waits keeps the values that its arguments had.
pub fn a_wait_keeps_its_mask()
    ensures { AWaitKeepsItsMask }
{}

/// Arithmetic wraps, and a jump goes on at the command of its label.
pub fn arithmetic_wraps_and_a_jump_goes_on_at_its_label()
    ensures { CalculatesAndJumps }
{}

/// A task that is signalled under Forbid runs once that is taken back.
pub fn forbid_keeps_others_off()
    ensures { ForbidKeepsOthersOff }
{}

/// A task whose quantum has ended lets a ready one of its priority run, and is after it.
pub fn an_ended_quantum_lets_an_equal_run()
    ensures { AnEndedQuantumLetsAnEqualRun }
{}

/// What is requested under Disable is served once, when interrupts are allowed again.
pub fn ticks_under_disable_are_served_once()
    ensures { TicksUnderDisableAreServedOnce }
{}

/// A task is found by its name while it is live.
pub fn a_live_task_is_found_by_its_name()
    ensures { ALiveTaskIsFoundByItsName }
{}

/// Sizes round up to a multiple of 8, and AllocMem answers 0 for size 0 and if nothing fits.
pub fn sizes_round_up()
    ensures { SizesRoundUp }
{}

/// Of the regions with the attributes asked for, the one of highest priority gives the memory.
pub fn suitable_regions_are_tried_by_priority()
    ensures { SuitableRegionsAreTriedByPriority }
{}

/// A node is enqueued before those of lower priority, and after its equals.
pub fn equals_stand_in_order_of_arrival()
    ensures { EqualsStandInOrderOfArrival }
{}

/// Freeing a list that holds a node is the alert LINK.
pub fn a_list_in_use_is_not_freed()
    ensures { AListInUseIsNotFreed }
{}

/// That many objects of each kind may live at once; a priority past its range is the alert VALUE.
pub fn each_kind_has_its_pool()
    ensures { EachKindHasItsPool }
{}

/// Messages are taken in order of arrival; a signal that came for no message only makes the task of a port look again.
/// The marks say what came and what was taken.
pub fn messages_are_taken_in_order_of_arrival()
    ensures trace { MessagesAreTakenInOrderOfArrival }
    ensures marks { MarksTellWhatCameAndWhatWasTaken }
{}

/// Of the public ports of a name that of highest priority is found; taking out one that is not public is the alert
/// LINK.
pub fn the_public_port_of_greatest_priority_is_found()
    ensures { ThePublicPortOfGreatestPriorityIsFound }
{}

/// A reply has the type NT_REPLYMSG and goes to the reply port; a port that holds a message is not deleted.
pub fn a_reply_goes_to_the_reply_port()
    ensures { AReplyGoesToTheReplyPort }
{}

/// The last release hands a semaphore to the first task that asked for it, whose call is tried again and prints its
/// plain line; a release by a task that does not own it is the alert SEM. The marks say who asked for it and who was
/// made its owner; a call that waits for nothing leaves none, nor does a release that is not the last.
pub fn a_semaphore_is_handed_to_the_first_that_asked()
    ensures trace { ASemaphoreIsHandedToTheFirstThatAsked }
    ensures marks { MarksTellWhoAskedAndWhoGotIt }
{}

/// A removed task leaves the queue of a semaphore, and the next one gets it. AttemptSemaphore answers 1 if it got it
/// and 0 if it did not, and a semaphore that is owned is not freed. The marks say who asked for it, who left and who
/// was made its owner.
pub fn a_removed_task_leaves_the_queue()
    ensures trace { ARemovedTaskLeavesTheQueue }
    ensures marks { MarksTellWhoAskedAndWhoLeft }
{}

/// A semaphore that is obtained and released if no task waits leaves no mark.
pub fn where_no_task_waits_there_is_no_mark()
    ensures { WhereNoTaskWaitsThereIsNoMark }
{}

/// A software interrupt that is caused runs before the next command of any task, and prints under its own name. Forbid
/// does not hold it back; Disable does, until it is taken back.
pub fn a_softint_runs_before_the_next_command()
    ensures { ASoftintRunsBeforeTheNextCommand }
{}

/// A software interrupt is not caused any more when its body begins, so the body may cause it again.
pub fn a_softint_may_cause_itself_again()
    ensures { ASoftintMayCauseItselfAgain }
{}

/// Software interrupts run one a step, the earliest caused among those of highest priority first; causing one that is
/// caused already does nothing.
pub fn softints_run_one_a_step_by_priority()
    ensures { SoftintsRunOneAStepByPriority }
{}

/// A software interrupt runs also if no task runs, and a task that it wakes runs after it.
pub fn a_softint_runs_where_no_task_runs()
    ensures { ASoftintRunsWhereNoTaskRuns }
{}

/// What is requested under Disable is served when interrupts are allowed again, each source once and that of highest
/// level first; its servers run by priority, until one claims the interrupt.
pub fn servers_run_by_priority_until_one_claims()
    ensures { ServersRunByPriorityUntilOneClaims }
{}

/// An alert in the midst of a body stops the machine at once: no later command of the body, server or switch follows,
/// nor does idle.
pub fn an_alert_in_a_body_stops_all()
    ensures switch { NoSwitchFollowsAnAlertInABody }
    ensures idle { NoIdleFollowsAnAlertInABody }
    ensures command { NoCommandFollowsAnAlertInASoftint }
{}

/// A port may cause a software interrupt when a message arrives, and its body takes the message; the marks say it.
pub fn a_port_may_cause_a_softint()
    ensures trace { APortMayCauseASoftint }
    ensures marks { MarksTellWhatASoftintTook }
{}

/// A library is opened at no lower version than it has. One that is removed while it is open stays until it is closed
/// for the last time; then its memory is free, and its base names nothing.
pub fn a_removed_library_goes_at_its_last_close()
    ensures { ARemovedLibraryGoesAtItsLastClose }
{}

/// An opening takes the removal of a library back: it stays loaded when it is closed for the last time, and may not be
/// closed once more.
pub fn an_opening_takes_a_removal_back()
    ensures { AnOpeningTakesARemovalBack }
{}

/// If a block finds no place, in version 2 of the rules, a library that is not open is expunged, and an open one stays
/// until it is closed for the last time. In version 1 neither happens.
pub fn libraries_give_way()
    ensures two { LibrariesGiveWay }
    ensures one { NoLibraryGivesWayInVersionOne }
{}

/// An open library that was asked for memory, and so marked, is expunged at its last close, also if the block found no
/// place after all. In version 1 it stays.
pub fn what_was_marked_in_vain_stays_so()
    ensures two { WhatWasMarkedInVainStaysSo }
    ensures one { NothingIsMarkedInVersionOne }
{}

/// Libraries are asked in the order of the file, wherever they lie, and no more of them than are needed for a place.
pub fn the_first_fit_ends_the_asking()
    ensures { TheFirstFitEndsTheAsking }
{}

/// No library is asked if as many objects of the kind live as may, nor for a block of no bytes. An object of another
/// kind expunges it.
pub fn nothing_is_asked_for_what_is_never_taken()
    ensures { NothingIsAskedForWhatIsNeverTaken }
{}

/// If memory is low, another library that is not open is expunged before a library is loaded; an open one is marked,
/// and the opening answers 0.
pub fn a_library_gives_way_to_another()
    ensures { ALibraryGivesWayToAnother }
{}

/// The clock of timer.device counts under Disable too.
pub fn the_clock_counts_under_disable()
    ensures { TheClockCountsUnderDisable }
{}

/// A task that does a request with a time by DoIO waits until the clock has come to it, and is woken by the signal of
/// its reply port.
pub fn a_task_sleeps_by_do_io()
    ensures { ATaskSleepsByDoIO }
{}

/// Requests finish by the time when they are due, whatever the order in which they were begun; a reply that GetMsg took
/// is not there to be waited for.
pub fn requests_finish_by_the_time_when_they_are_due()
    ensures { RequestsFinishByTheTimeWhenTheyAreDue }
{}

/// A task that waits in DoIO and gets the signal of the reply port from elsewhere looks again, and waits on; it does
/// not begin the request again.
pub fn a_stray_signal_makes_do_io_look_again()
    ensures { AStraySignalMakesDoIOLookAgain }
{}

/// A request that is aborted is replied at once with IOERR_ABORTED, and no tick finishes it any more; one that is done
/// cannot be aborted.
pub fn an_aborted_request_is_replied_at_once()
    ensures { AnAbortedRequestIsRepliedAtOnce }
{}

/// CheckIO leaves the reply of a request in its port, and WaitIO takes it: it is not there for GetMsg any more, nor to
/// be waited for again.
pub fn wait_io_takes_the_reply()
    ensures trace { WaitIOTakesTheReply }
    ensures marks { MarksTellWhichReplyWasTaken }
{}

/// A request finishes at the tick whose time is exactly the one when it is due, and one that is due a microsecond later
/// at the next tick.
pub fn a_request_that_is_due_now_finishes()
    ensures { ARequestThatIsDueNowFinishes }
{}

/// Requests that are due at one time finish in the order in which they were begun, wherever they lie.
pub fn requests_of_one_time_finish_in_the_order_of_beginning()
    ensures { RequestsOfOneTimeFinishInTheOrderOfBeginning }
{}

/// The microseconds of a request count also if they are a second or more.
pub fn microseconds_count_beyond_a_second()
    ensures { MicrosecondsCountBeyondASecond }
{}

/// The reply port of a request that is in progress cannot be deleted.
pub fn an_awaited_port_is_not_deleted()
    ensures { AnAwaitedPortIsNotDeleted }
{}

/// The timer has units 0, 1 and 3: a request for another one is not open, which its error reports, and cannot begin.
pub fn the_timer_has_three_units()
    ensures { TheTimerHasThreeUnits }
{}

/// A request that DoIO has done at once has the quick bit set; SendIO clears it, so that the request is replied. While
/// a request is in progress its error is 0, whatever it was before.
pub fn send_io_clears_the_quick_bit_and_the_error()
    ensures { SendIOClearsTheQuickBitAndTheError }
{}

/// A task that waits for a system time that is still to come by DoIO is woken when system time has come to it, at the
/// first tick after it.
pub fn a_task_waits_until_a_system_time()
    ensures { ATaskWaitsUntilASystemTime }
{}

/// A request for a system time that is exactly the one now is done at once, and quick, as one of time zero is; one for
/// a microsecond later waits.
pub fn a_time_that_has_come_is_done_at_once()
    ensures { ATimeThatHasComeIsDoneAtOnce }
{}

/// A task that waits for a system time is woken if another task sets system time to it, without a tick.
pub fn a_setting_wakes_a_task()
    ensures { ASettingWakesATask }
{}

/// The request that sets system time is replied first and the line of its call is printed; then those finish whose
/// system time has come, by their times, each with its line. The marks say the order of the replies.
pub fn the_setter_is_replied_first()
    ensures trace { TheSetterIsRepliedFirst }
    ensures marks { MarksTellThatTheSetterWasRepliedFirst }
{}

/// A setting of system time neither finishes nor moves a request of UNIT_MICROHZ: that finishes when the clock has come
/// to its time.
pub fn a_setting_leaves_the_other_units_alone()
    ensures { ASettingLeavesTheOtherUnitsAlone }
{}

/// If system time is set back, no request finishes, and those that wait for it wait longer; TR_GETSYSTIME reports
/// system time, and not the clock.
pub fn a_setting_back_finishes_nothing()
    ensures { ASettingBackFinishesNothing }
{}

/// At a tick requests of all units finish by the due time when their times come, those for a system time by how far it
/// is ahead of the clock then; those of one due time in the order in which they were begun, whatever their units.
pub fn requests_of_one_moment_finish_in_the_order_of_beginning()
    ensures { RequestsOfOneMomentFinishInTheOrderOfBeginning }
{}

/// A setting of system time under Disable finishes at once those that wait for it; what a tick has made due under
/// Disable on another unit finishes after Enable.
pub fn disable_does_not_hold_a_setting_back()
    ensures { DisableDoesNotHoldASettingBack }
{}

/// An equal task runs once the quantum of the running one has had all its servings of VERTB; a serving of another
/// source does not count.
pub fn a_quantum_lasts_its_servings()
    ensures { AQuantumLastsItsServings }
{}

/// A task that runs and gets the priority that it has runs on; a ready one is after its equals then.
pub fn a_ready_task_of_another_priority_arrives_anew()
    ensures { AReadyTaskArrivesAnew }
{}

/// A task that is ready receives signals, and a Wait takes only those of its mask: the others are there for the next
/// one.
pub fn a_wait_takes_those_of_its_mask()
    ensures { AWaitTakesThoseOfItsMask }
{}

/// AttemptSemaphore by the owner counts as ObtainSemaphore does: each has to be released.
pub fn an_attempt_of_the_owner_counts()
    ensures { AnAttemptOfTheOwnerCounts }
{}

/// NewMsg, NewSem, CreateMsgPort, CreateIORequest and NewList expunge a library that is not open, if they lack memory
/// in version 2 of the rules; what an object took is free once it is freed.
pub fn each_word_asks_for_its_memory()
    ensures { EachWordAsksForItsMemory }
{}
