// Lines of text in a lent buffer: a fixed word, and numbers in decimal behind it. Document 01, "Job and
// lane program".
#![tactic(auto)]

pub mod inner;
