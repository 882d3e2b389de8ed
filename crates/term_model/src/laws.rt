//! Laws that speak of definitions alone.
ghost use Rattle.term_model.specs.TurnLaws.{DamagedIsNotHeard, OneTurn, TerminalsStartSound, TurnIsItsSteps, TurnsGoOn, TurnsStaySound};
ghost use Rattle.term_model.specs.Terminal.{Terminal};
ghost use Rattle.term_model.specs.LineLaws.{TheLineCarriesUnits};
ghost use Rattle.term_model.specs.MachineLaws.{EachInputAsksAtMostOne, LayersAreWhole};
ghost use Rattle.term_model.specs.OrderRows.{HeardRows, OutageRows, SentRows, TimerRows};
ghost use Rattle.term_model.specs.Rows.{AlignmentRows, ServiceRows, SioGoesOut};
ghost use Rattle.term_model.specs.Runs.{RunsJoin, RunsStaySound};
ghost use Rattle.term_model.specs.TalkLaws.{AlwaysGoes, BreaksFirst, BreaksLater, EndsTheSame, Joins, OneOutcome, Splits};

/// A talk that went and the one that follows from what came of it are one talk, which went by the entries of both;
/// and it goes in no other way. The answers decide what comes of it, and whatever a door answers, it comes to an
/// end.
pub fn talks_follow_each_other()
    ensures joins { Joins Terminal Terminal }
    ensures splits { Splits Terminal Terminal }
    ensures ends { EndsTheSame Terminal }
    ensures one { OneOutcome Terminal }
    ensures goes { AlwaysGoes Terminal }
{}

/// Where the door has a fault in place of an answer, a talk breaks off with what was asked: in the first talk, or
/// in the one that follows it.
pub fn a_fault_breaks_a_talk_off()
    ensures first { BreaksFirst Terminal Terminal }
    ensures later { BreaksLater Terminal Terminal }
{}

/// An input of a machine asks at most one thing of the set; and what link state control does to alignment and to
/// flow control never ends the one, nor fails in the other, so that the layers of the definition leave nothing out
/// (Q.703 12.1).
pub fn an_input_asks_at_most_one_thing()
    ensures one { EachInputAsksAtMostOne }
    ensures layers { LayersAreWhole }
{}

/// A turn is its six steps, one after another. What was taken and put, and the door's answers, decide it; and
/// whatever the door answers, there is one, or a unit of the wide profile ended it.
pub fn a_turn_is_its_six_steps()
    ensures steps { TurnIsItsSteps }
    ensures one { OneTurn }
    ensures goes { TurnsGoOn }
{}

/// A damaged unit isn't heard by the set: a mark that brings no readable unit is told to a monitor alone, and all
/// that can be asked for it is Down or DownBlind (Q.703 4.2, 10).
pub fn a_damaged_unit_is_not_heard()
    ensures { DamagedIsNotHeard }
{}

/// A new terminal is sound, and commands and turns leave it so: no timer has more left than it was started with,
/// the FSN last sent is one, and the link is up at the set only in service. A turn asks of its own link alone: Up,
/// Down, DownBlind, Heard and Next.
pub fn terminals_stay_sound()
    ensures starts { TerminalsStartSound }
    ensures stays { TurnsStaySound }
{}

/// Worked rows: alignment with SIO, SIN and SIE, five aborts, a link that comes up, is refused, pauses and fails in
/// several ways, and the octets of an SIO on the line. Each comes out of the definition by computation (Q.703 7 to
/// 12).
pub fn rows_come_out()
    ensures alignment { AlignmentRows }
    ensures service { ServiceRows }
    ensures line { SioGoesOut }
    ensures timers { TimerRows }
    ensures heard { HeardRows }
    ensures outage { OutageRows }
    ensures sent { SentRows }
{}

/// Turns follow one another: the bits that were taken are those of the octets that the line gave. All turns of a
/// sound terminal ask of its own link alone, and leave it sound.
pub fn runs_follow_each_other()
    ensures join { RunsJoin }
    ensures stay { RunsStaySound }
{}

/// What turns put on the line: what was left to send, and then just the units that were chosen, in order, with a flag behind
/// each. No bit is lost or doubled, also where the line was full meanwhile (Q.703 2.2, 3).
pub fn the_line_carries_units()
    ensures { TheLineCarriesUnits }
{}
