//! Tools of tests: an allocator that refuses one request when it is told to, and bytes of
//! hexadecimal digits.
#![tactic(auto)]

mod allocator;
mod count;
mod digits;
mod turns;

pub use allocator::Refusing;
pub use digits::bytes_of;
pub use turns::refuse_each;
