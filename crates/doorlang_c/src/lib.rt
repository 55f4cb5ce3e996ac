// The tool chain's entries for programs in C: `tools/staticlib doorlang_c` makes the library, and include/doorlang.h declares them. A slice is a pointer
// and a length to C. As the entries, none has a `requires`: each returns the entry's answer, and writes its figures where that is 0, and the place of a
// text where that is 1 or 2.
#![tactic(auto)]

mod refused; // what a refusal tells
pub mod check; // the answer to a text
pub mod interpret; // the run of a text
pub mod compile; // the image of a text
pub mod emulate; // the run of an image
