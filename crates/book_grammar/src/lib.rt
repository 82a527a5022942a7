// The grammar of books: definitions and theorems only. What reads a text by them cites them.
#![tactic(auto)]
