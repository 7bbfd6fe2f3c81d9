//! What follows from the definitions alone. The function does nothing: its clause is the law.

ghost use Rattle.p9_judge.specs.Laws.{NoBreachWhereClosed};

/// No world and mount table have both a closed certificate and a breach.
pub fn no_breach_where_closed()
    ensures { NoBreachWhereClosed }
{}
