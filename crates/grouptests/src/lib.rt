// Whole runs with data groups, beside the same runs with headers and segments.
#![tactic(auto)]

#[cfg(test)]
mod tests;
