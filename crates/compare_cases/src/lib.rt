// Comparisons of modules of books, of makers' tables and of joined and renamed catalogues, tried through the public calls: what
// they answer, and what they leave in the rows that they are lent. The expectations were worked out by hand from the rules.
#![tactic(auto)]

#[cfg(test)]
mod tests;
