//! The options that commands have.
ghost use Rattle.std.specs.Prelude.{◌≡◌};
ghost use Rattle.ht_words.specs.Settings.{admits, default_text_of, name_of, plain_name_of};

/// An option of a command.
#[derive(Clone, Copy)]
pub enum Setting {
    /// How many workers detect: 1 to 64.
    Workers,
    /// How many jobs may be under way: 1 to 4096.
    Window,
    /// Where the generator of noise and of sample frames starts: any 64 bits.
    Seed,
    /// The noise's size: 0, for none, to 65535.
    Noise,
    /// How many sample frames: 1 to 64.
    Frames,
    /// The MCS index of the sample frames: 0 to 31.
    Mcs,
    /// The bandwidth of the sample frames in MHz: 20 or 40.
    Bandwidth,
    /// The octets of each sample frame: 1 to 65535.
    Length,
}

impl Setting {
    /// The word that names the option, its name without dashes, and the digits of its value where it isn't given.
    fn row(self) -> (&'static str, &'static str, &'static str)
        ensures name { result.0.now ≡ name_of self }
        ensures plain { result.1.now ≡ plain_name_of self }
        ensures default { result.2.now ≡ default_text_of self }
    {
        match self {
            Setting::Workers => ("--workers", "workers", "4"),
            Setting::Window => ("--window", "window", "256"),
            Setting::Seed => ("--seed", "seed", "42"),
            Setting::Noise => ("--noise", "noise", "0"),
            Setting::Frames => ("--frames", "frames", "8"),
            Setting::Mcs => ("--mcs", "mcs", "0"),
            Setting::Bandwidth => ("--bandwidth", "bandwidth", "20"),
            Setting::Length => ("--length", "length", "100"),
        }
    }

    /// The word that names the option.
    pub fn name(self) -> &'static str
        ensures { result.now ≡ name_of self }
    {
        self.row().0
    }

    /// The name without its dashes.
    pub fn plain_name(self) -> &'static str
        ensures { result.now ≡ plain_name_of self }
    {
        self.row().1
    }

    /// The digits of its value where it isn't given.
    pub fn default(self) -> &'static str
        ensures { result.now ≡ default_text_of self }
    {
        self.row().2
    }

    /// It may have this value.
    pub fn admits(self, value: u64) -> bool
        ensures { result ≡ admits self value }
    {
        match self {
            Setting::Workers | Setting::Frames => 1 <= value && value <= 64,
            Setting::Window => 1 <= value && value <= 4096,
            Setting::Seed => true,
            Setting::Noise => value <= 65535,
            Setting::Mcs => value <= 31,
            Setting::Bandwidth => value == 20 || value == 40,
            Setting::Length => 1 <= value && value <= 65535,
        }
    }
}
