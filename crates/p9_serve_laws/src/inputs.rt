//! Two inputs that differ only inside hidden directories, served side by side.

ghost use Rattle.p9_serve_laws.specs.Inputs.{AlikeInputsAreServedTheSame};
ghost use Rattle.p9_serve_laws.specs.Inputs.{AlikeInputsMayBeServedTheSame};

use p9_input_laws::laws::prepared_inputs_are_well_formed;

/// What two such inputs offer was served as many rounds, as it was where
/// [`run_serve`](p9_serve::run_serve) returns 0, and one chooser chose what came from outside. Then
/// both were served the same, and the guards that are left are alike.
pub fn alike_inputs_are_served_the_same()
    ensures { AlikeInputsAreServedTheSame }
{
    prepared_inputs_are_well_formed();
}

/// Where what the first offers was served, and the same operations of the namespace files fail, what
/// the second offers may be served the same.
pub fn alike_inputs_may_be_served_the_same()
    ensures { AlikeInputsMayBeServedTheSame }
{
    prepared_inputs_are_well_formed();
}
