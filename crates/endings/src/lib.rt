// Definitions and their theory only: see specs/ and proofs/. There is no code in this crate.
