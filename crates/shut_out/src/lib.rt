// What contracts say, and what they shut out; no code.
#![tactic(auto)]
