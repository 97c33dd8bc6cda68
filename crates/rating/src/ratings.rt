ghost use Rattle.std.specs.Prelude.{◌≡◌};
ghost use Rattle.rating.specs.Ratings.{suits};

/// What a rig can do. A rig whose slowest speed is above its fastest can test nothing.
#[derive(Clone, Copy, PartialEq, Eq, Debug)]
pub struct RigRating {
    /// The greatest pressure, in bar.
    pub pressure: u16,
    /// The greatest flow, in litres a minute.
    pub flow: u16,
    /// The lowest speed, in turns a minute.
    pub slowest: u16,
    /// The highest speed, in turns a minute.
    pub fastest: u16,
}

/// What a pump of a type is rated for.
#[derive(Clone, Copy, PartialEq, Eq, Debug)]
pub struct PumpRating {
    /// The rated pressure, in bar.
    pub pressure: u16,
    /// The rated flow, in litres a minute.
    pub flow: u16,
    /// The rated speed, in turns a minute.
    pub speed: u16,
}

impl RigRating {
    /// Whether the rig can test the pump: pressure and flow do not exceed its greatest, and the speed is in its range.
    pub fn suits(&self, pump: &PumpRating) -> bool
        ensures { result ≡ suits self.now pump.now }
    {
        pump.pressure <= self.pressure
            && pump.flow <= self.flow
            && (self.slowest..=self.fastest).contains(&pump.speed)
    }
}
