// The machine of document 01 on a meter's values, for any number of monitored values, and the proof that
// it simulates the account. No code: each meter's crate has its record and its functions.
#![tactic(auto)]
