// The book on aerodynamics, chapter 4 of Small Unmanned Aircraft, as definitions over any numbers (specs/Equations.antt); the Rust's
// formulas over the same (specs/Formulas.antt); and every place where the two differ (specs/Departures.antt), with the proof that there
// is no other (proofs/Exact.antt). No code.
#![tactic(auto)]
