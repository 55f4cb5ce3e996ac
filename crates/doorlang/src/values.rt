// The numbers that options give.
use crate::output::{Told, argument, tell, tell_argument};
use crate::{help, rooms};
use console::arguments::{Given, Setting};
use console::lent::filled;
use console::numbers;
use console::numbers::NumberError;

// The most words that a log may have, and what is taken where no option says otherwise.
const MOST_ROOM: u64 = 65536;

const ROOM: u64 = 1000;

const FUEL: u64 = 1000000;

const LIMIT: u64 = 100000000;

pub const MOST: u64 = 18446744073709551615;

fn given_number(rt: &HostRuntime, i: usize, most: u64) -> Result<u64, NumberError> {
    let mut room = filled::<u8, { rooms::WORD }>(0);
    let n = argument(rt, i, &mut room);
    numbers::number_of(&room[..n], most)
}

// A sentence about an option, whose value is argument i.
fn tell_option(rt: &HostRuntime, i: usize) {
    tell(rt, "doorlang: ");
    if 0 < i {
        tell_argument(rt, i - 1);
    }
    tell(rt, " ");
    tell_argument(rt, i);
}

// The number that is given for an option, at most `most`; the usual one where none is given.
fn value_of(rt: &HostRuntime, value: Option<usize>, usual: u64, most: u64) -> Result<u64, Told> {
    let Some(i) = value else {
        return Ok(usual);
    };
    match given_number(rt, i, most) {
        Ok(number) => Ok(number),
        Err(NumberError::TooLarge) => {
            tell_option(rt, i);
            tell(rt, format_args!(": the most is {most}\n"));
            Err(Told)
        }
        Err(NumberError::NoNumber) => {
            tell_option(rt, i);
            tell(rt, ": this is no decimal number\n\n");
            let _ = help::usage(&rt.stderr());
            Err(Told)
        }
    }
}

// The room of the log, and the most that a run may use of something: fuel or steps.
#[derive(Clone, Copy)]
pub struct Values {
    pub room: usize,
    pub most: u64,
}

impl Values {
    // The two numbers that the options of a run give: --room, and --fuel for a text or --limit for an image.
    fn of(rt: &HostRuntime, given: Given, most: Setting, usual: u64) -> Result<Values, Told> {
        let room = value_of(rt, given.room, ROOM, MOST_ROOM)? as usize;
        let most = value_of(rt, given.value(most), usual, MOST)?;
        Ok(Values { room, most })
    }

    pub fn of_text(rt: &HostRuntime, given: Given) -> Result<Values, Told> {
        Values::of(rt, given, Setting::Fuel, FUEL)
    }

    pub fn of_image(rt: &HostRuntime, given: Given) -> Result<Values, Told> {
        Values::of(rt, given, Setting::Limit, LIMIT)
    }
}
