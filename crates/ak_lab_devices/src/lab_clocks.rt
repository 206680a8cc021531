// Where the clocks of a lab may stand.
ghost use Rattle.std.specs.Prelude.{◌≡◌, ◌+ℤ◌, true};
ghost use Rattle.ak_io.specs.Arrivals.{IsClockMoment};
ghost use Rattle.ak_lab_devices.specs.Devices.{are_in_time, is_clock_moment};

use crate::devices::Device;
use ak_base::LAST_CLOCK_MOMENT;

/// Whether the lab's clock may stand there, and those of its devices with it.
pub fn are_in_time(clock: i64, devices: &[Device]) -> bool
    ensures { result ≡ are_in_time clock devices.now }
{
    if !is_clock_moment(clock) {
        return false;
    }
    for device in devices {
        if !is_shifted_in_time(clock, device.shift) {
            return false;
        }
    }
    true
}

/// Whether a clock may stand so far after another. A sum past `i64` is no moment.
pub fn is_shifted_in_time(clock: i64, by: i64) -> bool
    ensures { result ≡ is_clock_moment (clock +ℤ by) }
{
    match clock.checked_add(by) {
        Some(moment) => is_clock_moment(moment),
        None => false,
    }
}

/// Whether a clock may tell the moment.
pub fn is_clock_moment(moment: i64) -> bool
    ensures { result ≡ is_clock_moment moment }
{
    !(moment < 0) && !(LAST_CLOCK_MOMENT < moment)
}
