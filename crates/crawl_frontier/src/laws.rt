//! Laws: what is true of every history of steps, whichever threads make them. A law is a function that does nothing; its clauses
//! are the theorem. They are here with the only change that is made under a lock, [`Shard::admit`].

pub use crate::shard::{Admit, Offered, Shard};
pub use crawl_queues::laws::{accepted_lists, invariant_in_histories, steps_of_a_subqueue};
pub use crawl_queues::{Home, PassView, PopRight, PushRight, Subqueue, SubqueueRule};
