//! Laws of the definitions that the commands are proved to follow: of inputs, from their bytes on,
//! and of worlds, from the state in which they are exported. Two inputs that differ only inside
//! hidden directories are played alike. A world is served as if what is inside had never been
//! there. What is left of it can be sealed again, any number of times. Each function does nothing:
//! its clause is the law.
#![tactic(auto)]

pub mod laws;
