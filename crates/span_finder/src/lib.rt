//! How far the capacity that is built can go, up and down, in plans that cost at most a limit.
#![tactic(auto)]

mod found;
mod limited;
mod limiting;
mod near;
mod rounded_trial;
mod rounding;
mod slack;
mod spanning;

pub use found::{RoundedSpan, Span, SpanFail};
pub use rounding::round_span;
pub use slack::slack_limit;
pub use spanning::find_span;
