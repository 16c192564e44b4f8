//! What no clause says: that the calls succeed, and what many threads do to one gate.
mod endings;
mod own_steps;
mod pool;
mod rows;
mod threads;
