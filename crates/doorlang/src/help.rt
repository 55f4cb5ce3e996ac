// `doorlang help`: how the program is used.
use crate::output::{Status, Told, written};
use std::io;

// How the program is used, written to this stream.
pub fn usage<P: Print>(to: &P) -> io::Result<()> {
    print!(to;
        "usage: doorlang check TEXT
       doorlang run TEXT [--input FILE | --block FILE] [--fuel N] [--room N]
       doorlang build TEXT IMAGE
       doorlang exec IMAGE [--input FILE | --block FILE] [--limit N] [--room N] [--memory FILE]
       doorlang compare TEXT [--input FILE | --block FILE] [--fuel N] [--room N]
       doorlang help
"
    )
}

// What the commands, their options, the answers and the exit statuses are.
fn explain(rt: &HostRuntime) -> io::Result<()> {
    print!(rt;
        "
check    says whether a rule program is accepted
run      runs a rule program
build    compiles a rule program to an image
exec     runs an image on the panel processor
compare  runs a rule program and its image, and says whether they agree
help     prints this

--input FILE   the arrays as text: a decimal number for each element, in the order of declaration, between blanks
--block FILE   the arrays as raw words, lowest byte first (with neither: zeros, and for exec nothing)
--fuel N       the fuel of a run (1000000)
--limit N      the most steps (100000000)
--room N       the most numbers in the log (1000, at most 65536)
--memory FILE  writes the 2 MiB of memory after the run

Answers: 0 accepted, or run; 1 the text cannot be read; 2 it breaks a rule; 3 its image is too long; 4 this is no image; 5 the arrays do not fit.
Exit status: 0 accepted, finished or exit; 1 refused; 2 trap, fault, out of fuel, limit, or an image that does something else; 64 bad usage, or a file that cannot be read or written; 70 the program could not be built or run.
"
    )
}

pub fn help(rt: &HostRuntime) -> Result<Status, Told> {
    let _ = usage(rt);
    written(rt, explain(rt))?;
    Ok(Status::Done)
}
