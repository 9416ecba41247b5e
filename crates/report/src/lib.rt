// The report's text, and the program's output as a function of its input.
#![tactic(auto)]
