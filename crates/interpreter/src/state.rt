// What statements and calls change: a local, the log, a new activation's lets, the fuel.
ghost use Rattle.std.specs.Prelude.{◌≡◌, List, ◌++◌, ℕ, ◌-◌, ◌≤◌, length, set, take, replicate};
ghost use Rattle.interpreter.specs.Post.{Grows, Emits, Pays, world};

use crate::words::put;
use crate::{Meter, Stop};
use flat::trap::Trap;

// Sets local x, if there is one.
pub fn assign(work: &mut [u32], c: usize, x: u32, v: u32)
    ensures { take c work.new ≡ set (take c work.old) x v }
{
    if (x as usize) < c {
        put(work, x as usize, v);
    }
}

// Appends a value to the log, if it has room.
pub fn emit(log: &mut [u32], room: usize, v: u32, meter: &mut Meter) -> Result<(), Stop>
    requires { room ≤ length log.old }
    ensures by_index { (arrays : List ℕ) → Emits room v (world meter.old.fuel meter.old.logged log.old arrays) result (world meter.new.fuel meter.new.logged log.new arrays) }
    ensures grows { Grows room meter.old.logged log.old meter.new.logged log.new }
{
    let i = meter.logged;
    if i < room {
        log[i] = v;
        meter.logged += 1;
        return Ok(());
    }
    Err(Stop::Trapped(Trap::LogFull))
}

// Pays for what begins; where there isn't so much fuel, none is left.
pub fn pay(charge: u32, meter: &mut Meter) -> Result<(), Stop>
    ensures paid { Pays charge meter.old.fuel result meter.new.fuel }
    ensures logged { meter.new.logged ≡ meter.old.logged }
{
    if meter.fuel < u64::from(charge) {
        meter.fuel = 0;
        return Err(Stop::OutOfFuel);
    }
    meter.fuel -= u64::from(charge);
    Ok(())
}

// Sets the words from a to b to 0.
pub fn clear(work: &mut [u32], a: usize, b: usize)
    requires { (a ≤ b) × (b ≤ length work.old) }
    ensures { take b work.new ≡ take a work.old ++ replicate (b - a) 0 }
{
    work[a..b].fill(0);
}
