// What the customer is promised, as theorems over the contracts of `read`, `build` and `judge`. The crate has no function.

#![tactic(auto)]
