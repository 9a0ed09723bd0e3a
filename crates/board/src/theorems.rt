ghost use Rattle.board.specs.Guarantee.{GuaranteeStands, OrdersStand};

// Each function here does nothing: it is there for its contract, which is a theorem, so that the check asks for the proof.
// The type parameters are those of a run: the two orders and the pile.

// The guarantee: with an accepted rating and a pile that fits it, whatever a new run reaches keeps admissions, ages and
// shares, with the bounds that the rating answers.
pub fn guarantee_stands<A, B, P>() -> u8
    ensures { GuaranteeStands A B P }
{
    0
}

// The same where bounds and choices are said by two orders' own relations.
pub fn orders_stand<A, B, P>() -> u8
    ensures { OrdersStand A B P }
{
    0
}
