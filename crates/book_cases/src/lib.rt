// Written books, read and opened through the public calls: which are refused and where, which are taken, how their places are
// numbered, and what they answer. The expectations were worked out by hand from the rules.
#![tactic(auto)]

#[cfg(test)]
mod tests;
