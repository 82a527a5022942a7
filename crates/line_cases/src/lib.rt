// Lines, tried through the public calls: which plans are drawn, what swaps answer and leave, and what time does, over books,
// makers' tables and piles of both. The expectations were worked out by hand from the rules.
#![tactic(auto)]

#[cfg(test)]
mod tests;
