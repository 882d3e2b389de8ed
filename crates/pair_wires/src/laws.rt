//! Laws of two ends whose links come up one after the other, over definitions alone.
ghost use Rattle.pair_wires.specs.Apart.{EachEndStandsApart};
ghost use Rattle.pair_wires.specs.Carrying.{EveryRunThroughNoiseCarriesStreams, EverySoundRunCarriesStreams};
ghost use Rattle.pair_wires.specs.Moves.{EachEntryMoves, InVainIsNoMove};
ghost use Rattle.pair_wires.specs.Noise.{IntactLinesShowAsLoss};
ghost use Rattle.pair_wires.specs.Read.{OffersAreKept, StreamsAreReadOff};
ghost use Rattle.pair_wires.specs.Standing.{TurnsKeepStanding};
ghost use Rattle.pair_wires.specs.Starting.{EachLinkStandsSo};
ghost use Rattle.pair_wires.specs.Turning.{EachTurnAsksSo};
ghost use Rattle.pair_wires.specs.Ways.{EachWayIsUnderWay};

/// Where an end has settled a link, and isn't awaited in a life of it, it isn't up at the other end; and where it's
/// awaited the other hasn't settled it. So what an end hears on a link that it starts is of the life that it may join,
/// or of one that begins later.
pub fn each_end_stands_apart()
    ensures { EachEndStandsApart }
{}

/// What a set is asked, by whomever, is a move of the world of which it's an end: a link that comes up, a unit that the
/// set gives, one that it hears, or an event alone. What is asked in vain is none, as a unit on a link that isn't up,
/// or a FISU of the start. The world's history of that end lacks such entries.
pub fn each_entry_is_a_move()
    ensures moves { EachEntryMoves }
    ensures in_vain { InVainIsNoMove }
{}

/// A turn of a terminal leaves its link up at the set where it's served alone, and settled there from when it begins to
/// align till it comes up: so Up is answered Done. That's so if no start waits of a link that the set has left and not
/// settled, which a bench refuses.
pub fn each_turn_keeps_a_links_standing()
    ensures { TurnsKeepStanding }
{}

/// In every sound run of two benches on intact lines each link is so at each end: up at the set where its terminal
/// serves it alone, and settled there while it's on its way into service, and where a start waits of one that is out of
/// service.
pub fn each_link_stands_by_its_set()
    ensures { EachLinkStandsSo }
{}

/// What users offered and took at two benches is what they did in the world of which each bench's set is an end with a
/// longer history. So where users of the world take of each stream the first of what was offered, in order, those of
/// the benches do.
pub fn streams_are_read_off()
    ensures kept { OffersAreKept }
    ensures read { StreamsAreReadOff }
{}

/// In every sound run of two benches on intact lines each turn asks its set as a turn does by where its link stands
/// (`term_asks`), and what it asks leads the set from what it held to what it holds then.
pub fn each_turn_of_a_run_asks_so()
    ensures { EachTurnAsksSo }
{}

/// In every sound run of two benches on intact lines each end hears the units that are under way to it on a link, the
/// foremost first, and each unit that is sent joins them. A link that isn't marked, as one is that is out of service or
/// was told to stop, has nothing of what was under way then left to hear once it has aligned (Q.703 7.4).
pub fn each_way_is_under_way()
    ensures { EachWayIsUnderWay }
{}

/// In every sound run of two benches on intact lines, whichever end takes its turns when, and whichever links are started,
/// stopped and fail: what users took of a stream at one end is the first of what was offered and accepted at the other,
/// in order, each message once, unchanged; where none is pending at either end that's all but what waits for users in the
/// inbox. Premises: at most 3,700 octets are under way in a link's loop, and no history is longer than 2^48 entries.
pub fn every_sound_run_carries_streams()
    ensures { EverySoundRunCarriesStreams }
{}

/// The same where octets under way are damaged at any time and place, as often as may be, if damage shows as loss: what an
/// end hears in a turn are some of the units that come with its octet, in order, and nothing else. So no unit of which
/// octets were damaged is heard, nor one that damage made: their check bits tell (Q.703 4.2). Where links fail by it, and
/// are started again, streams are carried on.
pub fn every_run_through_noise_carries_streams()
    ensures { EveryRunThroughNoiseCarriesStreams }
{}

/// On intact lines the units that come in a turn are those that are heard in it: so a sound run on intact lines is one
/// through noise too.
pub fn intact_lines_show_as_loss()
    ensures { IntactLinesShowAsLoss }
{}
