#![tactic(auto)]

// Theory only: rows, solution, need, tables and lists of queries, for any type of cell.
