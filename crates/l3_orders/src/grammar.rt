//! Laws that speak of the grammar alone.
ghost use Rattle.std.specs.Prelude.{ℕ};
ghost use Rattle.l3_orders.specs.Grammar.{IsEnvelope, IsOneGrammar, IsOrder, IsTheTextOf};
ghost use Rattle.l2_units.specs.declared.profile.Profile.{Profile};
ghost use Rattle.l3_orders.specs.declared.order.Order.{Order};

/// The text of an order stands for that order, and for no other.
pub fn one_text()
    ensures { (profile : Profile) (order : Order) (sio dpc opc : ℕ)
        → IsOrder profile order → IsEnvelope sio dpc opc → IsTheTextOf profile order sio dpc opc }
{}

/// The grammar read from the left finds an order exactly where octets stand for it.
pub fn one_grammar()
    ensures { IsOneGrammar }
{}
