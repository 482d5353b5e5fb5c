//! Arithmetic of Java, and its texts: UTF-8 and UTF-16, the escapes of literals, and decimal numbers.
#![tactic(auto)]

mod arith;
mod escaping;
mod numeral;
mod unescaping;
mod utf;

pub use arith::{DivZero, int_negate, int_op, long_op};
pub use bj_base::Op;
pub use escaping::{Quote, escape};
pub use numeral::{decimal, parse_int};
pub use unescaping::{EscapeFault, unescape};
pub use utf::{TextFault, from_utf8, to_utf8, utf16};
