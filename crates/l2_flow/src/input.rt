/// What flow control is told.
#[derive(Clone, Copy, Debug, PartialEq, Eq)]
pub enum FlowIn {
    /// This end is busy: it withholds its acknowledgements.
    Busy,
    /// This end is no longer busy.
    Ease,
    /// T5 has ended.
    T5,
    /// A status indication B (busy) was received.
    HeardBusy,
    /// A received unit acknowledged a message or asked for retransmission (own). `more`: unacknowledged
    /// messages are left.
    Acked { more: bool },
    /// A message signal unit was sent.
    Sent,
    /// An end has a processor outage (Q.703 8): the far one can't acknowledge, or this one hears nothing of it.
    Paused,
    /// The outage of this end is over, or a fill-in or message signal unit was received behind that of the far end.
    /// `more`: messages are unacknowledged.
    Resumed { more: bool },
    /// T6 has ended.
    T6,
    /// T7 has ended.
    T7,
    /// The link has left service, or begins anew.
    Reset,
}
