// What a device can reach: after every start and every list of bytes and reports the numbers of each channel are in
// MIDI's range. And for what reasons calls are refused, whatever they are given. specs/ states it, proofs/ proves it.
// There is no code here. Assumes nothing.
#![tactic(auto)]
