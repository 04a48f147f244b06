//! The images that a run saves.
ghost use Rattle.std.specs.Prelude.{◌≡◌};
ghost use Rattle.pm_jobs.specs.Savings.{has_first, has_others};

/// A choice of the images that are saved after a run.
#[derive(Clone, Copy)]
pub enum Saving {
    /// No image.
    Nothing,
    /// The image of the disk on unit 4.
    First,
    /// The images of the disks on all units.
    All,
    /// The images of the disks on the units other than 4.
    Others,
}

impl Saving {
    /// Returns whether the image on unit 4 is saved.
    pub fn has_first(self) -> bool
        ensures value { result ≡ has_first self }
    {
        matches!(self, Saving::First | Saving::All)
    }

    /// Returns whether the images on the other units are saved.
    pub fn has_others(self) -> bool
        ensures value { result ≡ has_others self }
    {
        matches!(self, Saving::All | Saving::Others)
    }
}
