ghost use Rattle.l2_flow.specs.Laws.{BusyIsTold, FarBusyIsTold, T7ValueIsTold, T5RunsWhileBusy, T6RunsOnlyWhileFarBusy, T6RunsWhileFarBusy, T7RunsOnlyWhileAwaiting, T7RunsWhileAwaiting, T7RunsOnlyAfterSent};

/// Over every run from the start: this end is busy from a Busy to the next Ease or Reset, and T5 runs
/// exactly while it is.
pub fn t5_runs_while_busy()
    ensures value { BusyIsTold }
    ensures runs { T5RunsWhileBusy }
{}

/// Over every run from the start: the far end is busy from a HeardBusy to the next Acked or Reset, and T6
/// runs only while it is, all that while if T6 does not end.
pub fn t6_runs_while_far_busy()
    ensures value { FarBusyIsTold }
    ensures only { T6RunsOnlyWhileFarBusy }
    ensures runs { T6RunsWhileFarBusy }
{}

/// Over every run from the start: an acknowledgement is awaited from a Sent, or an Acked or Resumed with more, to
/// the next Acked that leaves none, Paused or Reset, and T7 runs only while it is, all that while if T7 does not
/// end. So T7 stands still while the far end has a processor outage; and it runs only after a message was sent
/// since the last reset, where an Acked and a Resumed tell of more only after that too.
pub fn t7_runs_while_awaiting()
    ensures value { T7ValueIsTold }
    ensures only { T7RunsOnlyWhileAwaiting }
    ensures runs { T7RunsWhileAwaiting }
    ensures sent { T7RunsOnlyAfterSent }
{}
