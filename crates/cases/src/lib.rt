// Tables of makers, tried through the public calls: which are refused and where, which are taken, what a table answers,
// and what is shown of it. The expectations were worked out by hand from the rules.
#![tactic(auto)]

#[cfg(test)]
mod tests;
