//! Laws that speak of definitions alone.
ghost use Rattle.term_laws.specs.Carrying.{EndsAnywhere, DamageStaysThere, HasOneList, HeardIsSealed, HearsAgain, HearsAgainSoFar, HearsFromTheFirst, HearsSoFar, HearsWhatIsPut, StaysReady};
ghost use Rattle.term_laws.specs.Damage.{SomeAreHeard};
ghost use Rattle.term_laws.specs.HeardLaws.{DamageOnlyLoses, StretchesJoin, TerminalsHearEachOther, TurnsGiveMarks, UnitsAreHeard};

/// What a sender puts on the line is heard, each signal unit as soon as the last bit of its flag has come, and nothing
/// else. Where bits were changed, lost or added no more is lost than the signal units that they touch and those up to the
/// next whole flag; what is heard good stood on the line with its check octets (Q.703 3, 4).
pub fn what_is_put_is_heard()
    ensures heard { HearsWhatIsPut }
    ensures from_first { HearsFromTheFirst }
    ensures stays { StaysReady }
    ensures so_far { HearsSoFar }
    ensures anywhere { EndsAnywhere }
    ensures one_list { HasOneList }
    ensures again { HearsAgain }
    ensures again_so_far { HearsAgainSoFar }
    ensures damage { DamageStaysThere }
    ensures sealed { HeardIsSealed }
{}

/// Of a line that was damaged in any number of places, where damage shows as loss, at any moment some of the signal units
/// that were sent by then were heard, in order, and no other: also before a whole flag has come behind the last damaged bit.
pub fn damage_only_loses()
    ensures { SomeAreHeard }
{}

/// Over a line that neither loses nor changes an octet one terminal hears just the units that the other sends, each as
/// soon as all its bits have come, and no damaged one; over a line that damages bits, at any moment some of those that
/// were sent by then, in order, and no other, where damage shows as loss (Q.703 3, 4).
pub fn terminals_hear_each_other()
    ensures join { StretchesJoin }
    ensures marks { TurnsGiveMarks }
    ensures units { UnitsAreHeard }
    ensures terminals { TerminalsHearEachOther }
    ensures damage { DamageOnlyLoses }
{}
