// How a run traps: document 01 §5. Its number is `Trap::LogFull as u32`.
#[derive(Clone, Copy, Debug, PartialEq, Eq)]
pub enum Trap {
    Malformed, // how a run of words that are no program's traps
    DivisionByZero,
    IndexOutside,
    TooManyActivations,
    LogFull,
}
