// When an instance is shown as abandoned, above the accounts: definitions, and theorems about every list of calls. No
// function stands here.
#![tactic(auto)]
