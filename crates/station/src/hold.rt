//! Holds on an epoch.

ghost use Rattle.std.specs.Prelude.{◌≡◌};

/// The right to end an epoch: the number of its station and the epoch's serial. Only an open makes one, and it cannot be
/// copied or let go: it ends in a close, or by being written off.
pub struct Hold {
    station: u32,
    serial: u16,
}

impl Hold {
    /// A hold on an epoch of a station.
    pub(crate) fn new(station: u32, serial: u16) -> Hold
        ensures { (result.station ≡ station) × (result.serial ≡ serial) }
    {
        Hold { station, serial }
    }

    /// The station's number.
    pub fn station(&self) -> u32
        ensures { result ≡ self.now.station }
    {
        self.station
    }

    /// The epoch's serial.
    pub fn serial(&self) -> u16
        ensures { result ≡ self.now.serial }
    {
        self.serial
    }

    /// Gives the hold up, and answers its two numbers.
    pub fn write_off(self) -> (u32, u16)
        ensures { result ≡ (self.station, self.serial) }
    {
        let Hold { station, serial } = self;
        (station, serial)
    }
}
