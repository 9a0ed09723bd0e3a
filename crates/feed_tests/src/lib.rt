#![tactic(auto)]

// Tests of marks, settings, feeds, layers over them, lists and the fit check.

#[cfg(test)]
mod tests;
