//! What is claimed of the requesters of a description.
ghost use Rattle.dma_routes.specs.Routes.{MadeHasDevices};

/// The requesters of a description that makes a machine are devices whose numbers have 32 bits.
pub fn requesters_are_devices()
    ensures { MadeHasDevices }
{}
