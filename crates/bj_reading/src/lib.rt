//! What reading the Java text of a console line comes to, as the reply.
#![tactic(auto)]

mod parsed;
mod reply;
mod text;
mod word;

pub use reply::reading_reply;
pub use text::JavaText;
