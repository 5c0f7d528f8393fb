#![tactic(auto)]

// Laws only: commutative rings of characteristic 2, their power series and polynomials, Euclid's rows, the key
// equation and the distance bound. No code; proofs/Lib.antt lists the files in reading order.
