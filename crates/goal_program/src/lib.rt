//! A goal runs as a program of its own: it reads one request from a stream, and writes the answer of the built-in goals.
//!
//! 1. `input::read_all` reads the stream to its end, or one byte past the limit.
//! 2. `request::read_request` reads the bytes as a request: `call::call_in` its goal, `setting::configuration_in` its settings,
//!    `lists::list_in` its lists, and `name::file_in` the names of files in them.
//! 3. `answering::reply_to` makes the answer.
//! 4. `run::goal_main` writes it, and gives the exit status.
//!
//! `law` says which requests and which names of files are read as they were written.
#![tactic(auto)]

mod answering;
mod call;
mod input;
pub mod law;
mod lists;
mod members;
mod name;
mod request;
pub mod run;
mod setting;
mod text;

pub use law::{files_are_read, requests_are_read};
pub use request::{MOST_REQUEST, read_request};
pub use run::{ANSWERED, FAULT, NO_MEMORY, NO_REQUEST, goal_main};
