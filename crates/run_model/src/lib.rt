//! The definitions by which contracts describe a session on one manager: the state of a run, what each
//! command does to it, the replies, and a run over all items of a script. No code.
#![tactic(auto)]
