//! The world of a process: what it is asked, what it replies, and what happens.
//!
//! A process asks for a call of another module's function, for a send, a trace, a look at the messages that came, or a
//! wait; a script lists the replies, each with the messages that came meanwhile. Asking `call io:nl()` of a script
//! whose next reply returns `ok` gives `ok`, is one happening, and puts the reply's messages at the end of the mailbox
//! with the next serials. Where no reply is left the run waits on its request.
//!
//! A meaning (`M`) goes from a state to another with an outcome. The rules that every form of a program shares stand
//! here once: remote calls and calls of terms, entries and their bound, receives and their timeouts, updates of maps,
//! and the references that mark receives. What a form adds stands in its crate.
//!
//! The functions of `laws` have no body: their clauses are laws of asking and receiving. Of scripts nothing is asked
//! but that they are well formed; whether a real system behaves as some script is not said.
#![tactic(auto)]

mod laws;
mod world;

pub use laws::{
    asking_happens_once, asking_waits_without_replies, receiving_looks_for_more,
    receiving_takes_the_first_accepted, serials_rise, taking_takes_one_out,
};
pub use world::{
    Choices, Delay, Happening, Happenings, How, Mailbox, Message, Replies, Reply, Request, Script,
};
