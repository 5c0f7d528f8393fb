// Laws only: binary cyclic codes over masks and the field. Generator and codewords, encoding, certificates and their
// distance, decoding by the key equation. No code; proofs/Lib.antt lists the files in reading order.
#![tactic(auto)]
