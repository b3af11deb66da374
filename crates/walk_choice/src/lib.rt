// The choice by distances: from the root, link by link, the lowest edge word by which some state still arrives in time.
#![tactic(auto)]

pub mod choosing;
