// The reference judge: the meaning of a sheet's rule by Table 1, as a set of states. It may be slow; it ends.
//
// A round of a fixed point passes once over the transitions for each modality inside it. Fixed points of one kind within one another share their rounds:
// B of them take at most B * (S + 1) in all. Each change of kind on the way in multiplies that by up to S + 1, so that six in turn can take 65 to the 6.
#![tactic(auto)]

pub mod judging;
mod sets;
mod table1;
