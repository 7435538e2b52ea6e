//! What follows from the definitions, each as the contract of a function that does nothing. A call of
//! one makes its law known to the caller.
ghost use Rattle.nc_machine.specs.Laws.{UnopposedIsGranted};

/// What a live session asks for is done, or shown, where nothing stands against it and the disk does not
/// fail: no entry of `handle` refuses it then.
pub fn unopposed_is_granted()
    ensures { UnopposedIsGranted }
{}
