// A trace: the bytes of its records become calls, the calls go through replay, the replies become lines.
#![tactic(auto)]

pub mod plays;
