//! Worked examples of the definitions, in proofs/: texts and what they read as, what they are printed as, and which rules they break.
