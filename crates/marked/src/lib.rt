// Theory only: the marked cases of document 01, as one table with one statement.
#![tactic(auto)]
