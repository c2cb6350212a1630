//! What a call comes to that answers or stops at the first fault: its outcome, or want of memory. The words that
//! contracts say it with are in specs/Outcome.antt; there is no code.
#![tactic(auto)]
