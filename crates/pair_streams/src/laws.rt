//! The laws of streams, over definitions alone.
ghost use Rattle.pair_streams.specs.Handed.{EveryHistoryHandsOutInOrder, EveryHonestRunHandsOutAll, EverySoundRunHandsOutInOrder, EveryQuietRunHandsOutAPart};
ghost use Rattle.pair_streams.specs.Streams.{EverySoundRunKeepsStreams, EveryQuietRunAcksTheTaken, EveryQuietRunKeepsOrder, EveryQuietRunTellsNumbers};

/// In every sound run, after every step of it, for each of the 16 streams and in both directions: what the far
/// end's users got is a prefix of what was offered here, numbers and octets, no number twice, and holds each message of
/// the stream that is acknowledged here. And where nothing of the stream is pending, parked or waits for a changeback, they got all
/// that was offered (Q.704 5.1.1, 6.1).
pub fn every_sound_run_keeps_streams()
    ensures { EverySoundRunKeepsStreams }
{}

/// In every quiet run, in which a link may also be left blindly, after every step of it, for each of the 16 streams and in
/// both directions: what the far end's users got is an in-order part of what was offered here, numbers and octets, no number
/// twice, and holds each message of the stream that is acknowledged here. And where nothing of the stream is pending, parked or waits
/// for a changeback, each message that they didn't get was discarded here in an emergency (Q.704 5.6).
pub fn every_quiet_run_keeps_order()
    ensures { EveryQuietRunKeepsOrder }
{}

/// Of every set and every legal history: what users took, and then what the inbox holds, is what it held at first and then the
/// bodies of the heard units that are answered as messages, in order.
pub fn every_history_hands_out_in_order()
    ensures { EveryHistoryHandsOutInOrder }
{}

/// In every honest run, after every step of it, for each stream and at both ends: what users took, and then what the inbox
/// holds, are the bodies of what was got.
pub fn every_honest_run_hands_out_all()
    ensures { EveryHonestRunHandsOutAll }
{}

/// In every sound run, after every step of it, for each of the 16 streams and in both directions: the bodies that the far end's
/// users took are the first of those that were offered here: none is missing among them, doubled, changed or out of order.
pub fn every_sound_run_hands_out_in_order()
    ensures { EverySoundRunHandsOutInOrder }
{}

/// In every quiet run, after every step of it, for each of the 16 streams and in both directions: the bodies that the far end's
/// users took are those of some of the messages that were offered here, in their order.
pub fn every_quiet_run_hands_out_a_part()
    ensures { EveryQuietRunHandsOutAPart }
{}

/// In every quiet run, at every step of it: the number of an order that is heard about a link that hasn't settled
/// isn't unreasonable: it's that of the last message that its end accepted there (Q.704 5.4, 5.6).
pub fn every_quiet_run_tells_numbers()
    ensures { EveryQuietRunTellsNumbers }
{}

/// In every quiet run, after every step of it, at both ends: of each link, settled or not, what counts as acknowledged
/// was accepted by the far end.
pub fn every_quiet_run_acks_the_taken()
    ensures { EveryQuietRunAcksTheTaken }
{}
