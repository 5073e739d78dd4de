// The chips that a query can name.
ghost use Rattle.std.specs.Prelude.{◌≡◌, ◌≢◌, MatchOption, Some};
ghost use Rattle.rate_query.specs.Chips.{name_of, clock_of};
ghost use Rattle.rate_query.specs.declared.chip.ChipName.{ChipName};

use std::fmt;

#[derive(Clone, Copy, Debug, PartialEq, Eq, Hash)]
pub enum ChipName {
    Esp32,
    Esp32c3,
    Esp32c6,
}

impl ChipName {
    // The word for the chip, for who has no formatter; `Display` prints it.
    pub fn name(self) -> &'static str
        ensures { result.now ≡ name_of self }
    {
        match self {
            ChipName::Esp32 => "esp32",
            ChipName::Esp32c3 => "esp32c3",
            ChipName::Esp32c6 => "esp32c6",
        }
    }

    // The clock, in hertz, of a query that names none.
    pub fn default_clock(self) -> u32
        ensures { result ≡ clock_of self }
    {
        match self {
            ChipName::Esp32 | ChipName::Esp32c3 => 80_000_000,
            ChipName::Esp32c6 => 40_000_000,
        }
    }

    // The chip that a word names. A `TryFrom` would need an error of one case, which its one caller would turn into `ChipUnknown` at once.
    pub fn from_word(word: &[u8]) -> Option<ChipName>
        ensures { MatchOption result ((chip : ChipName) → word.now ≢ name_of chip) (λ chip. word.now ≡ name_of chip) }
    {
        match word {
            b"esp32" => Some(ChipName::Esp32),
            b"esp32c3" => Some(ChipName::Esp32c3),
            b"esp32c6" => Some(ChipName::Esp32c6),
            _ => None,
        }
    }
}

impl fmt::Display for ChipName {
    ghost output = { λ chip. Some (name_of chip) };

    fn fmt<W: fmt::Write>(&self, f: &mut fmt::Formatter<W>) -> fmt::Result {
        f.write_str(self.name())
    }
}
