//! How a run ended.

ghost use Rattle.std.specs.Prelude.{◌≡◌};

/// How a run ended. The number of each is the status that the program ends with.
#[derive(Clone, Copy, Debug, PartialEq, Eq, Drop)]
pub enum Status {
    /// The source was read to its end. Every line is answered; or, in a check, the transcript is lawful.
    Done = 0,
    /// The source was read to its end in a check, and the transcript is not lawful.
    Unlawful = 1,
    /// The words of the command line are not taken. Nothing was read or written.
    Usage = 2,
    /// A read failed. Every line that ended before is answered; in a check nothing is written.
    ReadFault = 3,
    /// A write failed. What was written is a front of what there was to write, and nothing is written after it.
    WriteFault = 4,
    /// The source has more bytes than may be read. The lines that ended within the limit are answered; in a check nothing
    /// is written.
    Limit = 5,
    /// There was no memory to set up, or none to check on. Nothing was written, and nothing was read but in a check.
    NoMemory = 6,
}

impl Status {
    /// The status that the program ends with: 0 where all is answered or the transcript is lawful, 1 where it is not, else a
    /// number from 2 to 6.
    pub fn number(self) -> u8
        ensures done { self ≡ Status.Done → result ≡ 0 }
        ensures unlawful { self ≡ Status.Unlawful → result ≡ 1 }
        ensures usage { self ≡ Status.Usage → result ≡ 2 }
        ensures read_fault { self ≡ Status.ReadFault → result ≡ 3 }
        ensures write_fault { self ≡ Status.WriteFault → result ≡ 4 }
        ensures limit { self ≡ Status.Limit → result ≡ 5 }
        ensures no_memory { self ≡ Status.NoMemory → result ≡ 6 }
    {
        self as u8
    }
}
