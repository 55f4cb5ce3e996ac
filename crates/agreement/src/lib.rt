// Whether a run of a text and a run of its image agree, as claim 3 says they do.
#![tactic(auto)]

ghost use Rattle.std.specs.Prelude.{◌≡◌};
ghost use Rattle.word.specs.Choice.{both};
ghost use Rattle.word.specs.Bytes.{words_of_bytes};
ghost use Rattle.language.specs.Tokens.{same as same_of, begins as begins_of};
ghost use Rattle.interpreter.specs.Post.{outcome_of};
ghost use Rattle.agreement.specs.Agreement.{exits as exits_of, traps_with, faults as faults_of, agrees_of};

use interpreter::Outcome;
use processor::Status;
use word::bytes::word_of;

// Whether the words of these bytes are the same as those. Each byte is named by its place, as `words_of_bytes_at` has it: with `as_chunks` and `from_le_bytes` the same
// law would be needed of `first_chunks` and of `of_le_bytes` besides, and the loop would be no plainer.
fn same_words(bytes: &[u8], words: &[u32]) -> bool
    ensures { result ≡ same_of (words_of_bytes bytes.now) words.now }
{
    if bytes.len() / 4 != words.len() {
        return false;
    }
    for (i, word) in words.iter().enumerate() {
        let at = 4 * i;
        if word_of(bytes[at], bytes[at + 1], bytes[at + 2], bytes[at + 3]) != *word {
            return false;
        }
    }
    true
}

// Whether the words of a are the first of b.
fn begins(a: &[u32], b: &[u32]) -> bool
    ensures { result ≡ begins_of a.now b.now }
{
    b.starts_with(a)
}

fn exits(s: Status) -> bool
    ensures { result ≡ exits_of s }
{
    matches!(s, Status::Exit)
}

#[tactic(auto, unfolding(crate::specs::Agreement::traps_with))]
fn traps_with(t: u32, s: Status) -> bool
    ensures { result ≡ traps_with t s }
{
    s == Status::Trap(t)
}

fn faults(s: Status) -> bool
    ensures { result ≡ faults_of s }
{
    matches!(s, Status::Fault(_))
}

// Whether both left the same log and the same arrays.
fn left_same(log: &[u32], arrays: &[u32], logged: &[u32], block: &[u8]) -> bool
    ensures { result ≡ both (same_of logged.now log.now) (same_of (words_of_bytes block.now) arrays.now) }
{
    logged == log && same_words(block, arrays)
}

// Whether a run of a text, by its outcome, log and arrays, and one of its image, by its stop, what it logged and the block that its arrays are in, agree.
pub fn agree(
    outcome: Outcome,
    log: &[u32],
    arrays: &[u32],
    status: Status,
    logged: &[u32],
    block: &[u8],
) -> bool
    ensures { result ≡ agrees_of (outcome_of outcome) log.now arrays.now status logged.now (words_of_bytes block.now) }
{
    match outcome {
        Outcome::Finished => exits(status) && left_same(log, arrays, logged, block),
        Outcome::Trapped(t) => traps_with(t, status) && left_same(log, arrays, logged, block),
        Outcome::OutOfFuel => !faults(status) && begins(log, logged),
    }
}
