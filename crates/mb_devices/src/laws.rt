//! What holds of the devices.

ghost use Rattle.mb_devices.specs.Laws.{TicksPass};

/// Ticks at which the timer does not come to 0 are one subtraction, and ask for the same interrupt level.
pub fn ticks_pass()
    ensures { TicksPass }
{}
