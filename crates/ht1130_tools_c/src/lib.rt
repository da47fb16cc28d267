// The archive libht1130_tools.a: the functions of crate ht1130_tools that C calls, each with the promise that it has there.
// include/ht1130_tools.h documents them. A crate is a library or an archive, and host_guarantee stands on the library.
#![tactic(auto)]

mod instructions;
mod masks;
mod pictures;
mod scripts;
mod texts;
