// The answers that refuse.
ghost use Rattle.std.specs.Prelude.{◌≡◌};
ghost use Rattle.toolchain.specs.declared.refusals.Refusal.TheVariants as refusal;
ghost use Rattle.toolchain.specs.Checking.{number_of, place_in};
ghost use Rattle.toolchain.specs.Refusals.{from_reading, from_run};

use compiler::TooLong;
use emulator::image;
use rules::Broken;
use tokens::Unread;

// The answers of document 01 §1 and document 03 §5 that refuse; those of a text carry the place in it that is at fault.
#[derive(Clone, Copy, Debug, PartialEq, Eq)]
pub enum Refusal {
    Unreadable(usize),
    Broken(usize),
    TooLong,
    Code,
    Input,
    Room,
}

impl Refusal {
    // The answer's number, as the documents have it: an enum whose variants carry a place has none to cast.
    pub fn number(self) -> u32
        ensures { result ≡ number_of self }
    {
        match self {
            Refusal::Unreadable(_) => 1,
            Refusal::Broken(_) => 2,
            Refusal::TooLong => 3,
            Refusal::Code => 4,
            Refusal::Input => 5,
            Refusal::Room => 6,
        }
    }

    // The place in the text, where it carries one.
    pub fn place(self) -> Option<usize>
        ensures { result ≡ place_in self }
    {
        match self {
            Refusal::Unreadable(at) => Some(at),
            Refusal::Broken(at) => Some(at),
            _ => None,
        }
    }
}

impl From<Unread> for Refusal {
    ghost from_gives = { λ unread refused. refused ≡ from_reading unread };

    fn from(unread: Unread) -> Self {
        match unread {
            Unread::Unreadable(at) => Self::Unreadable(at),
            Unread::NoRoom => Self::Room,
        }
    }
}

impl From<Broken> for Refusal {
    ghost from_gives = { λ broken refused. refused ≡ refusal.Broken broken.0 };

    fn from(broken: Broken) -> Self {
        Self::Broken(broken.0)
    }
}

impl From<TooLong> for Refusal {
    ghost from_gives = { λ _ refused. refused ≡ refusal.TooLong };

    fn from(_too_long: TooLong) -> Self {
        Self::TooLong
    }
}

impl From<image::Refusal> for Refusal {
    ghost from_gives = { λ run refused. refused ≡ from_run run };

    fn from(run: image::Refusal) -> Self {
        match run {
            image::Refusal::Code => Self::Code,
            image::Refusal::Input => Self::Input,
            image::Refusal::Room => Self::Room,
        }
    }
}
