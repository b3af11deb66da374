// What a turn of a search does: the edge words of a node are followed into the states that their labels let in.
#![tactic(auto)]

pub mod enter;
