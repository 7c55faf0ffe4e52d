// Counting over the seats of a table: how often a number occurs in a list, and sums over the views of all seats.
// It promises the crates over tables the lemmas by which a step changes such a sum. It has no code.
// The definitions are in specs/: Counts.
#![tactic(auto)]
