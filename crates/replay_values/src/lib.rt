// Makes the calls that write no record, with the arguments of a case: tables, questions about types, views, comparison and lengths. Each function
// makes the calls of one part of include/calls.list, and answers the call's result.
#![tactic(auto)]

pub mod comparing;
pub mod lengths;
pub mod table_calls;
pub mod type_calls;
pub mod views;
pub mod word_type_calls;
