#![tactic(auto)]

// What each call makes of a memory.
