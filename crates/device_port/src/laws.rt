//! What is claimed of the routes of writes by address.
ghost use Rattle.device_port.specs.Routes.{MadeHasDevices, KeptHasRoutes};
ghost use Rattle.device_port.specs.Routes.{WritesGoByOwnRange, MessagesAreOwn, MessagesStand};

/// No requester can be another's device. A machine has the routes of its description.
pub fn requesters_are_apart()
    ensures devices { MadeHasDevices }
    ensures kept { KeptHasRoutes }
    ensures own_range { WritesGoByOwnRange }
    ensures own_device { MessagesAreOwn }
    ensures stands { MessagesStand }
{}
