//! What `curve` answers over accepted data: what a limit on the emissions of the model period costs, at each of several limits, with a
//! bound on the cost at every other limit.
#![tactic(auto)]

mod books;
mod curve;
mod laws;
mod points;
mod texts;
mod trials;

pub use curve::answer_curve;
pub use laws::limit_laws;
pub use trials::Wanted;
