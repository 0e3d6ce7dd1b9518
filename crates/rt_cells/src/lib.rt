//! Cells of a mask, lines and rectangles of them: definitions, and the lemmas that every layer shares. It has no code.
#![tactic(auto)]
