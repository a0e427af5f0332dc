// Numbers and bytes as text: decimal and lower-case hexadecimal, read from words and written into a lent buffer.
#![tactic(auto)]

pub mod hex;
pub mod reading;
pub mod writing;

pub use hex::{hex_byte, hex_digit, hex_value, read_hex};
pub use reading::read_decimal;
pub use writing::{put, put_decimal, put_hex};
