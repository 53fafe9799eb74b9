// The cases of 01's "Flown by hand" that are marked P: one table, proved once (specs/Table.antt, proofs/Computed.antt); the limit
// of the wind in numbers (specs/Wind.antt); shares of thrust off the square (specs/Shares.antt); and lift rotors (specs/Lift.antt). No
// code.
#![tactic(auto)]
