// How an instruction stops a run.
ghost use Rattle.std.specs.Prelude.{◌≡◌};
ghost use Rattle.emulator.specs.declared.stop.Stop.TheVariants.{Fault};
ghost use Rattle.emulator.specs.Stands.{status_of};

use processor::Status;
use processor::numbers::Unlisted;

// Document 03 §4: exit, a trap or a fault. The limit stops a run before an instruction, and so stands in Status alone.
#[derive(Clone, Copy, Debug, PartialEq, Eq)]
pub enum Stop {
    Exit,
    Trap(u32),
    Fault(u32),
}

impl From<Stop> for Status {
    ghost from_gives = { λ stop status. status ≡ status_of stop };

    fn from(stop: Stop) -> Status {
        match stop {
            Stop::Exit => Status::Exit,
            Stop::Trap(number) => Status::Trap(number),
            Stop::Fault(number) => Status::Fault(number),
        }
    }
}

// Fault 2: the word is unknown.
impl From<Unlisted> for Stop {
    ghost from_gives = { λ _ stop. stop ≡ Fault 2 };

    fn from(_unlisted: Unlisted) -> Stop {
        Stop::Fault(2)
    }
}
