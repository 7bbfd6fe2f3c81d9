//! Where two servers begin side by side.

ghost use Rattle.p9_serve_laws.specs.Beside.{NewServersAreTwins, TwinsAreBeside};

/// New servers over two alike guards, of which the first is guarded, are twins.
pub fn new_servers_are_twins<S>()
    ensures { NewServersAreTwins S }
{}

/// Twins are side by side.
pub fn twins_are_beside<S>()
    ensures { TwinsAreBeside S }
{}
