//! Tests of what no clause can say: that the definitions mean the format that is written down, and
//! that each call succeeds where memory is ample. Each expected value was worked out by hand.

mod choices;
mod lines;
mod printing;
mod scripts;
